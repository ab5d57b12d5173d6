// What refuses a session file, in the order in which it is judged: its first nine bytes, its sizes, its rule and its body, and the room. A file that
// is not refused has its head judged, which is handed on.
ghost use Rattle.std.specs.Prelude.{◌≡◌, not, ◌||◌, eqb};
ghost use Rattle.protocol.specs.First.{first_number};
ghost use Rattle.protocol.specs.Replies.{number_of_reply};
ghost use Rattle.protocol.specs.Slices.{table_of, in_range};
ghost use Rattle.sessions.specs.File.{cells_in, records_at};
ghost use Rattle.sessions.specs.FileRefusals.{head_refusals, body_refusals, records_bad, body_bad, read_refusals, write_refusals, run_refusals};
ghost use Rattle.sessions.specs.Code.{Judged};

use crate::{Head, bytes};
use protocol::{Refused, Rule};

// Too short for its first nine bytes, no mark, or another version.
#[tactic(auto, unfolding(crate::specs::FileRefusals::head_refusals), using(crate::proofs::BytesLaws::mark_leads))]
fn judged_head(file: &[u8]) -> Result<Head, Refused>
    ensures { Judged file.now (head_refusals file.now) result }
{
    if file.len() < 9 {
        return Err(Refused::WrongLength);
    }
    if !file.starts_with(&bytes::MARK) {
        return Err(Refused::WrongMark);
    }
    if bytes::read16(file, 3) != 1 {
        return Err(Refused::WrongVersion);
    }
    Ok(crate::head_of(file))
}

// P or N is out of range, or there is not one starting value for each cell.
fn sizes_bad(boards: usize, cells: usize, starting: usize) -> bool
    ensures { result ≡ (not (in_range boards cells) || not (eqb starting cells)) }
{
    !table::in_range(boards, cells) || starting != cells
}

// So many bytes are no whole records, or too many.
#[tactic(auto, unfolding(crate::specs::FileRefusals::records_bad))]
fn records_bad(n: usize) -> bool
    ensures { result ≡ records_bad n }
{
    n % 9 != 0 || n / 9 > 4096
}

// The starting values are cut off, or the records behind them, which begin at `from`, are bad.
#[tactic(auto, unfolding(crate::specs::FileRefusals::body_bad))]
fn body_bad(file: &[u8], from: usize) -> bool
    requires { from ≡ records_at (cells_in file.now) }
    ensures { result ≡ body_bad file.now }
{
    file.len() < from || records_bad(file.len() - from)
}

// Bad sizes, no such rule, or a bad body: the conditions of the list of refusals, in its order, and the file's or the caller's number of a rule.
#[tactic(auto, unfolding(crate::specs::FileRefusals::body_refusals), using(protocol::proofs::Unique::low_number))]
fn judge_body(sizes_bad: bool, rule: u8, body_bad: bool) -> Result<(), Refused>
    ensures { number_of_reply result ≡ first_number (body_refusals sizes_bad rule body_bad) }
{
    if sizes_bad {
        return Err(Refused::BadSizes);
    }
    Rule::try_from(rule)?;
    if body_bad {
        return Err(Refused::WrongLength);
    }
    Ok(())
}

// A file to read, where so many places are lent for its starting values.
#[tactic(auto, using(crate::proofs::RefusalLaws::read_head, crate::proofs::RefusalLaws::read_body))]
pub fn judged_to_read(file: &[u8], lent: usize) -> Result<Head, Refused>
    ensures { Judged file.now (read_refusals file.now lent) result }
{
    let head = judged_head(file)?;
    let sizes_bad = sizes_bad(head.boards, head.cells, lent);
    judge_body(sizes_bad, head.rule, body_bad(file, head.from))?;
    Ok(head)
}

// A session to write. The sizes and lengths are judged before they are summed, so that no sum wraps.
#[tactic(auto, using(crate::proofs::RefusalLaws::write_body, crate::proofs::RefusalLaws::write_short, crate::proofs::RefusalLaws::write_roomy))]
pub fn judge_to_write(
    rule: u8,
    boards: usize,
    cells: usize,
    starting: usize,
    records: usize,
    room: usize,
) -> Result<(), Refused>
    ensures { number_of_reply result ≡ first_number (write_refusals rule boards cells starting records room) }
{
    let sizes_bad = sizes_bad(boards, cells, starting);
    judge_body(sizes_bad, rule, records_bad(records))?;
    if room < bytes::records_at(cells) + records {
        return Err(Refused::NoRoom);
    }
    Ok(())
}

// A file to run, over a table and with so many places for the answers.
pub fn judged_to_run(
    file: &[u8],
    main: &[u32],
    copies: &[u32],
    masks: &[u16],
    numbers: usize,
    values: usize,
) -> Result<Head, Refused>
    ensures { Judged file.now (run_refusals file.now (table_of main.now copies.now masks.now) numbers values) result }
{
    let head = judged_head(file)?;
    let fits = table::sizes_good(head.boards, head.cells, main, copies, masks);
    judge_body(!fits, head.rule, body_bad(file, head.from))?;
    if numbers < head.count || values < head.count {
        return Err(Refused::NoRoom);
    }
    Ok(head)
}
