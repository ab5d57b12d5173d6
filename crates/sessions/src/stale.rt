// The stale copies of a table: live, and not the latest accepted write to their cell.
ghost use Rattle.std.specs.Prelude.{◌≡◌, ◌≤◌, length, get_or};
ghost use Rattle.sessions.specs.Run.{count_below, is_stale};
ghost use Rattle.sessions.specs.Code.{Counted, CountsStale};

use protocol::{Board, MASKS_PER_CELL, Mask};

// The stale copies of one cell, a copy for each board.
fn at_cell(live: Mask, copies: &[u32], latest: u32) -> usize
    requires { length copies.now ≤ 16 }
    ensures { (result ≡ count_below (length copies.now) (λ p. is_stale live.bits p (get_or copies.now p 0) latest)) × (result ≤ length copies.now) }
{
    let mut stale = 0;
    for (board, copy) in copies.iter().enumerate() {
        let board = Board { number: board };
        stale += usize::from(live.has(board) & (*copy != latest));
    }
    stale
}

// The stale copies of all cells, where the table's lengths are right; `latest` has a place for each cell.
pub fn count(boards: usize, copies: &[u32], masks: &[u16], latest: &[u32]) -> usize
    requires { Counted boards copies.now masks.now latest.now }
    ensures { CountsStale boards copies.now masks.now latest.now result }
{
    let mut stale = 0;
    for (cell, written) in latest.iter().enumerate() {
        let live = Mask {
            bits: masks[cell * MASKS_PER_CELL],
        };
        stale += at_cell(live, &copies[cell * boards..(cell + 1) * boards], *written);
    }
    stale
}
