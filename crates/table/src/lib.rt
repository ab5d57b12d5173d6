// The table over lent memory: its sizes, a fresh table, a check of the whole table, and one action on it.
// A rule is a number here, for any may be asked, and one above 4 is refused with 2.
// The slices are lent one by one: a struct of `&mut` slices needs a clause in each contract, for each of them, that it is still the same reference.
#![tactic(auto)]

ghost use Rattle.std.specs.Prelude.{◌≡◌};
ghost use Rattle.protocol.specs.Replies.{answer_of, done_of};
ghost use Rattle.protocol.specs.Slices.{table_of, in_range, sizes_good};
ghost use Rattle.table.specs.Statements.{Freshens, Checks, Steps};

mod action;
mod cell;
mod rules;
mod view;

use crate::view::{CellView, View};
use protocol::{Action, Board, MASKS_PER_CELL, Refused, Rule};

// P is 1 to 16, and N is 1 to 512.
#[tactic(auto, unfolding(protocol::specs::Slices::in_range))]
pub fn in_range(boards: usize, cells: usize) -> bool
    ensures { result ≡ in_range boards cells }
{
    (1..=16).contains(&boards) && (1..=512).contains(&cells)
}

// P and N are in range, and each slice has exactly its length. The range is judged first, so that no product wraps.
pub fn sizes_good(boards: usize, cells: usize, main: &[u32], copies: &[u32], masks: &[u16]) -> bool
    ensures { result ≡ sizes_good boards cells (table_of main.now copies.now masks.now) }
{
    if !in_range(boards, cells) {
        return false;
    }
    (main.len() == cells)
        & (copies.len() == cells * boards)
        & (masks.len() == cells * MASKS_PER_CELL)
}

// A fresh table: main is `starting`, every copy and mask is 0.
pub fn fresh(
    boards: usize,
    cells: usize,
    starting: &[u32],
    main: &mut [u32],
    copies: &mut [u32],
    masks: &mut [u16],
) -> Result<(), Refused>
    ensures { Freshens boards cells (table_of main.old copies.old masks.old) starting.now (done_of result) (table_of main.new copies.new masks.new) }
{
    if !sizes_good(boards, cells, main, copies, masks) {
        return Err(Refused::BadSizes);
    }
    if starting.len() != cells {
        return Err(Refused::BadSizes);
    }
    main.copy_from_slice(starting);
    copies.fill(0);
    masks.fill(0);
    Ok(())
}

// Sound, which is `None`, or the lowest-numbered cell that is not: one pass over the cells, and at each over its boards. At the first unsound cell both
// loops are left by the label, as the project's list of forms by place has it.
pub fn check(
    rule: u8,
    boards: usize,
    cells: usize,
    main: &[u32],
    copies: &[u32],
    masks: &[u16],
) -> Result<Option<usize>, Refused>
    ensures { Checks boards cells (table_of main.now copies.now masks.now) rule result }
{
    let view = View::new(boards, cells, main, copies, masks)?;
    let ruled = Rule::try_from(rule)?;
    let mut found = None;
    'cells: for number in 0..view.cells {
        let cell = CellView { view, number };
        let m = cell.masks();
        if !m.are_sound(ruled, view.boards) {
            found = Some(number);
            break 'cells;
        }
        let now = cell.current(m.dirty);
        'boards: for board in 0..view.boards {
            let copy = cell.copy(board);
            let board = Board { number: board };
            if !cell::copy_sound(ruled, m.live, copy, now, board) {
                found = Some(number);
                break 'cells;
            }
        }
    }
    Ok(found)
}

// One action on a table: its answer's value, and the table after it. A refusal changes nothing.
pub fn step(
    rule: u8,
    boards: usize,
    cells: usize,
    main: &mut [u32],
    copies: &mut [u32],
    masks: &mut [u16],
    action: Action,
) -> Result<u32, Refused>
    ensures { Steps boards cells (table_of main.old copies.old masks.old) rule action (answer_of result) (table_of main.new copies.new masks.new) }
{
    let view = View::new(boards, cells, main, copies, masks)?;
    let ruled = Rule::try_from(rule)?;
    let procedure = action::judge(&view, ruled, action)?;
    let cell = action.cell as usize;
    action::store_masks(masks, procedure, cell);
    Ok(action::store_values(boards, main, copies, procedure, cell))
}
