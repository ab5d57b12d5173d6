// A table that is lent to be read, its sizes judged.
ghost use Rattle.std.specs.Prelude.{◌≡◌, ◌+◌, ◌*◌, ◌<◌, ◌^◌, false, slice_index, IfOk, IfErr};
ghost use Rattle.protocol.specs.Names.{rule_number};
ghost use Rattle.protocol.specs.declared.Refused.TheVariants.{BadSizes};
ghost use Rattle.protocol.specs.Slices.{table_of, sizes_good};
ghost use Rattle.table.specs.Code.{Sized, MasksAt, current_at, copies_sound};

use crate::cell;
use crate::cell::Masks;
use protocol::{Board, MASKS_PER_CELL, Mask, Refused, Rule};

#[derive(Clone, Copy)]
pub struct View<'a> {
    pub boards: usize,
    pub cells: usize,
    main: &'a [u32],
    copies: &'a [u32],
    masks: &'a [u16],
    ghost sized: { Sized boards cells main.now copies.now masks.now },
}

impl<'a> View<'a> {
    pub fn new(
        boards: usize,
        cells: usize,
        main: &'a [u32],
        copies: &'a [u32],
        masks: &'a [u16],
    ) -> Result<View<'a>, Refused>
        ensures bad { IfErr result (λ e. (e ≡ BadSizes) × (sizes_good boards cells (table_of main.now copies.now masks.now) ≡ false)) }
        ensures sizes { IfOk result (λ v. (v.boards ≡ boards) × (v.cells ≡ cells)) }
        ensures slices { IfOk result (λ v. (v.main.now ≡ main.now) × (v.copies.now ≡ copies.now) × (v.masks.now ≡ masks.now)) }
    {
        if !crate::sizes_good(boards, cells, main, copies, masks) {
            return Err(Refused::BadSizes);
        }
        Ok(View {
            boards,
            cells,
            main,
            copies,
            masks,
        })
    }
}

// One cell of such a table.
#[derive(Clone, Copy)]
pub struct CellView<'a> {
    pub view: View<'a>,
    pub number: usize,
    ghost inside: { number < view.cells },
}

impl CellView<'_> {
    pub fn masks(&self) -> Masks
        ensures { MasksAt self.now.view.masks.now self.now.number result.live.bits result.dirty.bits result.lock.bits }
    {
        let at = self.number * MASKS_PER_CELL;
        Masks {
            live: Mask {
                bits: self.view.masks[at],
            },
            dirty: Mask {
                bits: self.view.masks[at + 1],
            },
            lock: Mask {
                bits: self.view.masks[at + 2],
            },
        }
    }

    pub fn copy(&self, board: usize) -> u32
        requires { board < self.now.view.boards }
        ensures { result ≡ slice_index self.now.view.copies.now (self.now.number * self.now.view.boards + board) }
    {
        self.view.copies[cell::place(self.view.boards, self.number, board)]
    }

    // The dirty copy if there is one, else main.
    pub fn current(&self, dirty: Mask) -> u32
        requires { dirty.bits < 2 ^ self.now.view.boards }
        ensures { result ≡ current_at self.now.view.boards self.now.number dirty.bits self.now.view.main.now self.now.view.copies.now }
    {
        match dirty.lowest() {
            None => self.view.main[self.number],
            Some(board) => self.copy(board),
        }
    }

    // What all the copies of a cell show. None is left out where one fails: with one way out the loop runs fastest.
    pub fn copies_sound(&self, rule: Rule, live: Mask, current: u32) -> bool
        ensures { result ≡ copies_sound (rule_number rule) self.now.view.boards self.now.number live.bits current self.now.view.copies.now self.now.view.boards }
    {
        let mut sound = true;
        for board in 0..self.view.boards {
            let copy = self.copy(board);
            let board = Board { number: board };
            sound = cell::copy_sound(rule, live, copy, current, board) & sound;
        }
        sound
    }
}
