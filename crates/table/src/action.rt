// An action on a table in lent slices: what stands against it, and what it does.
ghost use Rattle.std.specs.Prelude.{◌≡◌, ◌+◌, ◌*◌, ◌<◌, ◌≤◌, length, slice_index, slice_set, IfOk};
ghost use Rattle.protocol.specs.Masks.{with_board, without_board};
ghost use Rattle.protocol.specs.Names.{rule_number, proc_of};
ghost use Rattle.protocol.specs.Replies.{number_of_reply};
ghost use Rattle.protocol.specs.Slices.{table_of};
ghost use Rattle.protocol.specs.Step.{answer};
ghost use Rattle.table.specs.Code.{EachBoard, StoresValues, StoresMasks};

use crate::view::{CellView, View};
use crate::{cell, rules};
use protocol::{Action, Board, MASKS_PER_CELL, Mask, Proc, Refused, Rule};

// The procedure of an action that nothing stands against. Of the cells only the named one is looked at.
pub fn judge(view: &View, rule: Rule, a: Action) -> Result<Proc, Refused>
    ensures number { number_of_reply result ≡ (answer (rule_number rule) view.now.boards view.now.cells (table_of view.now.main.now view.now.copies.now view.now.masks.now) a).number }
    ensures ok { IfOk result (λ p. p ≡ proc_of a) }
{
    let procedure = rules::procedure(rule, a)?;
    if rules::off_board(view.boards, a) {
        return Err(Refused::OffBoard);
    }
    let number = a.cell as usize;
    if number >= view.cells {
        return Err(Refused::NoSuchCell);
    }
    let cell = CellView {
        view: *view,
        number,
    };
    let m = cell.masks();
    if !m.are_sound(rule, view.boards) {
        return Err(Refused::NotSound);
    }
    let now = cell.current(m.dirty);
    if !cell.copies_sound(rule, m.live, now) {
        return Err(Refused::NotSound);
    }
    let copy = cell.copy(a.board as usize);
    rules::guard(rule, m, copy, now, procedure)?;
    Ok(procedure)
}

// What an accepted action stores in main and the copies, and the value that it answers. What is stored to stays the caller's slices.
pub fn store_values(
    boards: usize,
    main: &mut [u32],
    copies: &mut [u32],
    procedure: Proc,
    cell: usize,
) -> u32
    requires { (cell < length main.old) × EachBoard (λ p. cell * boards + p < length copies.old) procedure }
    ensures { StoresValues boards main.old copies.old cell procedure result main.new copies.new }
{
    match procedure {
        Proc::Read(p) => copies[cell::place(boards, cell, p)],
        Proc::Write(p, value) => {
            copies[cell::place(boards, cell, p)] = value;
            0
        }
        Proc::Barrier(_) => 0,
        Proc::MtoC(p) => {
            copies[cell::place(boards, cell, p)] = main[cell];
            0
        }
        Proc::CtoM(p) => {
            main[cell] = copies[cell::place(boards, cell, p)];
            0
        }
        Proc::CtoC(p, q) => {
            copies[cell::place(boards, cell, q)] = copies[cell::place(boards, cell, p)];
            0
        }
        Proc::Drop(p) => {
            copies[cell::place(boards, cell, p)] = 0;
            0
        }
        Proc::Acquire(_) => 0,
        Proc::Release(_) => 0,
    }
}

fn put(bits: &mut u16, board: Board)
    ensures { bits.new ≡ with_board bits.old board.number }
{
    *bits = Mask { bits: *bits }.with(board).bits;
}

fn take(bits: &mut u16, board: Board)
    ensures { bits.new ≡ without_board bits.old board.number }
{
    *bits = Mask { bits: *bits }.without(board).bits;
}

// What an accepted action stores in the masks.
pub fn store_masks(masks: &mut [u16], procedure: Proc, cell: usize)
    requires { (cell * 3 + 2 < length masks.old) × EachBoard (λ p. p < 16) procedure }
    ensures { StoresMasks masks.old cell procedure masks.new }
{
    let live = cell * MASKS_PER_CELL;
    let dirty = live + 1;
    let lock = live + 2;
    match procedure {
        Proc::Read(_) => {}
        Proc::Write(p, _) => {
            put(&mut masks[live], Board { number: p });
            put(&mut masks[dirty], Board { number: p });
        }
        Proc::Barrier(_) => {}
        Proc::MtoC(p) => put(&mut masks[live], Board { number: p }),
        Proc::CtoM(p) => take(&mut masks[dirty], Board { number: p }),
        Proc::CtoC(_, q) => put(&mut masks[live], Board { number: q }),
        Proc::Drop(p) => take(&mut masks[live], Board { number: p }),
        Proc::Acquire(p) => put(&mut masks[lock], Board { number: p }),
        Proc::Release(p) => take(&mut masks[lock], Board { number: p }),
    }
}
