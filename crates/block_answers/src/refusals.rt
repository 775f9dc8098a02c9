// The refusals, by their numbers.
ghost use Rattle.block_answers.specs.Said.{number_of};

use common::HasNumber;

#[derive(Clone, Copy, Debug, PartialEq, Eq)]
pub enum Refusal {
    Damaged = 1,
    Child = 2,
    Block = 3,
    Rights = 4,
    Piece = 5,
    Apart = 6,
    Unmerged = 7,
    Slot = 8,
    Structure = 9,
    Enabled = 10,
    Empty = 11,
    Root = 12,
    Length = 13,
}

pub type Answer = Result<u32, Refusal>;

impl HasNumber for Refusal {
    ghost number = { number_of };

    fn number(self) -> u32 {
        self as u32
    }
}
