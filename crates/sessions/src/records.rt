// The records of a session: each one an action, performed in order.
ghost use Rattle.std.specs.Prelude.{◌≡◌, ◌<◌, length};
ghost use Rattle.protocol.specs.Replies.{answer_of};
ghost use Rattle.protocol.specs.Slices.{table_of};
ghost use Rattle.sessions.specs.File.{action_at, actions_in};
ghost use Rattle.sessions.specs.Code.{Noted, Prepared, Ran};

use crate::Head;
use protocol::{Action, Answer, Refused};

// The nine bytes of a record, as an action.
#[tactic(auto, unfolding(crate::specs::File::le16, crate::specs::File::le32, crate::specs::File::action_at))]
fn action_of(nine: &[u8; 9]) -> Action
    ensures { result ≡ action_at nine.now 0 }
{
    let [code, board, to, cell_low, cell_high, v0, v1, v2, v3] = *nine;
    Action {
        code,
        board,
        to,
        cell: u16::from_le_bytes([cell_low, cell_high]),
        value: u32::from_le_bytes([v0, v1, v2, v3]),
    }
}

// 1 for an accepted action, else 0, which is what it adds to the count; an accepted write, code 1 of a record, becomes the latest of its cell.
fn note(action: Action, told: Result<u32, Refused>, latest: &mut [u32]) -> usize
    requires { (answer_of told).number ≡ 0 → action.cell < length latest.old }
    ensures { Noted action (answer_of told) latest.old result latest.new }
{
    if told.is_err() {
        return 0;
    }
    if action.code == 1 {
        latest[action.cell as usize] = action.value;
    }
    1
}

// Performs the records in order: their answers, the table after the last, the latest accepted writes, and how many were accepted.
pub fn step_all(
    head: Head,
    records: &[u8],
    main: &mut [u32],
    copies: &mut [u32],
    masks: &mut [u16],
    numbers: &mut [u8],
    values: &mut [u32],
    latest: &mut [u32],
) -> usize
    requires { Prepared head.cells records.now numbers.old values.old latest.old }
    ensures { Ran head.rule head.boards head.cells (table_of main.old copies.old masks.old) numbers.old values.old latest.old (actions_in records.now) result (table_of main.new copies.new masks.new) numbers.new values.new latest.new }
{
    let (records, _) = records.as_chunks::<9>();
    let mut accepted = 0;
    for (i, record) in records.iter().enumerate() {
        let action = action_of(record);
        let told = table::step(
            head.rule,
            head.boards,
            head.cells,
            main,
            copies,
            masks,
            action,
        );
        accepted += note(action, told, latest);
        let answer = Answer::from(told);
        numbers[i] = answer.number;
        values[i] = answer.value;
    }
    accepted
}
