// One cell: its masks, whether these and a copy are sound, and where a copy stands.
ghost use Rattle.std.specs.Prelude.{◌≡◌, ◌+◌, ◌*◌, ◌<◌, ◌≤◌, ◌^◌, ltb};
ghost use Rattle.protocol.specs.Names.{rule_number};
ghost use Rattle.table.specs.Code.{masks_sound, copy_sound};

use protocol::{Board, Mask, Rule};

#[derive(Clone, Copy, Debug, PartialEq, Eq)]
pub struct Masks {
    pub live: Mask,
    pub dirty: Mask,
    pub lock: Mask,
}

// No board at P or above.
fn is_below(mask: Mask, boards: usize) -> bool
    requires { boards ≤ 16 }
    ensures { result ≡ ltb mask.bits (2 ^ boards) }
{
    (mask.bits as u32) < (1 << boards)
}

impl Masks {
    // What the masks alone show, each condition by whole masks: no bit at P or above, no lock below rule 3, then Inv2, Inv3, Inv5, Inv6, Inv7.
    // With at most one lock, "when p has the lock no other board is live" says: nobody has the lock, or every live board has it.
    #[tactic(auto, unfolding(crate::specs::Code::masks_sound, protocol::specs::Names::rule_number))]
    pub fn are_sound(self, rule: Rule, boards: usize) -> bool
        requires { boards ≤ 16 }
        ensures { result ≡ masks_sound (rule_number rule) boards self.live.bits self.dirty.bits self.lock.bits }
    {
        (is_below(self.live, boards) & is_below(self.dirty, boards) & is_below(self.lock, boards))
            & (Rule::CurrentCaches.is_before(rule) | self.lock.is_empty())
            & self.dirty.is_within(self.live)
            & (rule.is_before(Rule::GlobalImpl) | (self.dirty.count() <= 1))
            & (rule.is_before(Rule::ExclusiveLocks0)
                | ((self.lock.count() <= 1)
                    & (self.lock.is_empty() | self.live.is_within(self.lock))))
            & (rule.is_before(Rule::ExclusiveLocks) | self.dirty.is_within(self.lock))
    }
}

// What one board's copy shows, beside the current value.
#[tactic(auto, unfolding(crate::specs::Code::copy_sound, protocol::specs::Names::rule_number))]
pub fn copy_sound(rule: Rule, live: Mask, copy: u32, current: u32, board: Board) -> bool
    ensures { result ≡ copy_sound (rule_number rule) live.bits copy current board.number }
{
    let is_live = live.has(board);
    (is_live | (copy == 0)) & (rule.is_before(Rule::CurrentCaches) | (!is_live | (copy == current)))
}

// Where a board's copy of a cell stands.
pub fn place(boards: usize, cell: usize, board: usize) -> usize
    requires { cell * boards + board < 2 ^ 64 }
    ensures { result ≡ cell * boards + board }
{
    cell * boards + board
}
