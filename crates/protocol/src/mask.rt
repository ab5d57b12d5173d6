// A mask of boards: board p is the bit worth 2^p.
ghost use Rattle.std.specs.Prelude.{◌≡◌, ◌≢◌, ◌<◌, eqb, MatchOption};
ghost use Rattle.std.specs.Int.Count.{ones};
ghost use Rattle.protocol.specs.Masks.{has_board, with_board, without_board, has_another, within, lowest_board};

// A board of some table, which has at most 16.
#[derive(Clone, Copy)]
pub struct Board {
    pub number: usize,
    ghost low: { number < 16 },
}

#[derive(Clone, Copy, Debug, PartialEq, Eq)]
pub struct Mask {
    pub bits: u16,
}

impl Mask {
    pub fn is_empty(self) -> bool
        ensures { result ≡ eqb self.bits 0 }
    {
        self.bits == 0
    }

    #[tactic(auto, unfolding(crate::specs::Masks::has_board))]
    pub fn has(self, board: Board) -> bool
        ensures { result ≡ has_board self.bits board.number }
    {
        (self.bits >> board.number) % 2 == 1
    }

    pub fn with(self, board: Board) -> Mask
        ensures { result.bits ≡ with_board self.bits board.number }
    {
        Mask {
            bits: self.bits | (1 << board.number),
        }
    }

    pub fn without(self, board: Board) -> Mask
        ensures { result.bits ≡ without_board self.bits board.number }
    {
        Mask {
            bits: self.bits & !(1 << board.number),
        }
    }

    // Another board than this one is in the mask.
    #[tactic(auto, unfolding(crate::specs::Masks::has_another))]
    pub fn has_another(self, board: Board) -> bool
        ensures { result ≡ has_another self.bits board.number }
    {
        !self.without(board).is_empty()
    }

    // Every board of the mask is in the other.
    #[tactic(auto, unfolding(crate::specs::Masks::within))]
    pub fn is_within(self, other: Mask) -> bool
        ensures { result ≡ within self.bits other.bits }
    {
        self.bits & other.bits == self.bits
    }

    // How many boards are in the mask.
    pub fn count(self) -> u32
        ensures { result ≡ ones self.bits }
    {
        self.bits.count_ones()
    }

    // The lowest board, if there is one.
    pub fn lowest(self) -> Option<usize>
        ensures { MatchOption result (self.bits ≡ 0) (λ p. (self.bits ≢ 0) × (p ≡ lowest_board self.bits)) }
    {
        if self.is_empty() {
            return None;
        }
        Some(self.bits.trailing_zeros() as usize)
    }
}
