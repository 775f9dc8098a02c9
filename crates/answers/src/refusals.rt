// The refusals, by their numbers: 19 and 23 are none.
ghost use Rattle.answers.specs.Said.{number_of};

use common::HasNumber;

#[derive(Clone, Copy, Debug, PartialEq, Eq)]
pub enum Refusal {
    Damaged = 1,
    Size = 2,
    Address = 3,
    Twice = 4,
    Child = 5,
    Rights = 6,
    Hand = 7,
    Table = 8,
    Taken = 9,
    List = 10,
    Chain = 11,
    FullTable = 12,
    Depth = 13,
    Root = 14,
    Unmapped = 15,
    Kernel = 16,
    Short = 17,
    Magic = 18,
    SlotPage = 20,
    Slot = 21,
    EmptySlot = 22,
    Edition = 24,
}

// "A refusal's answer is its number alone".
pub type Answer = Result<u32, Refusal>;

impl HasNumber for Refusal {
    ghost number = { number_of };

    fn number(self) -> u32 {
        self as u32
    }
}
