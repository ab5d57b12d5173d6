// The listing of a session file: what the program `session` writes.
#![tactic(auto)]

ghost use Rattle.listing.specs.Statements.{Lists};

mod decimal;
mod line;
mod refused;
mod run;

use protocol::{MASKS_PER_CELL, Refused};
use run::Run;

// What is lent to a run: a table of the largest size, and answers for the most records.
const BOARDS: usize = 16;

const CELLS: usize = 512;

const RECORDS: usize = 4096;

// Lists a session file at the start of `out`: answers how long the listing is. Nothing behind it is changed; without room nothing is.
pub fn list(file: &[u8], out: &mut [u8]) -> Result<usize, Refused>
    ensures { Lists file.now out.old result out.new }
{
    let mut main = [0; CELLS];
    let mut copies = [0; CELLS * BOARDS];
    let mut masks = [0; CELLS * MASKS_PER_CELL];
    let mut numbers = [0; RECORDS];
    let mut values = [0; RECORDS];
    // A file of more boards or cells is refused.
    let head = sessions::head_of(file);
    let boards = head.boards.min(BOARDS);
    let cells = head.cells.min(CELLS);
    let told = sessions::run(
        file,
        &mut main[..cells],
        &mut copies[..cells * boards],
        &mut masks[..cells * MASKS_PER_CELL],
        &mut numbers,
        &mut values,
    );
    match told {
        Ok(report) => Run {
            file,
            head,
            report,
            numbers: &numbers,
            values: &values,
        }
        .list(out),
        Err(refused) => refused::list(refused, out),
    }
}
