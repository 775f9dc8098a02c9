// Scripts by hand: from a text to a replay script, or to the first line that can't be read and why.
#![tactic(auto)]

ghost use Rattle.assembly.specs.Told.{number_of};

mod assembling;
mod buffers;
mod calls;
mod messages;

pub use assembling::{assemble, script_length};
pub use buffers::{message_buffer, script_buffer, text_buffer};
use common::HasNumber;
pub use messages::put_message;

// Why a line can't be read, by the numbers of the rules.
#[derive(Clone, Copy, Debug, PartialEq, Eq)]
pub enum Reason {
    NoPages = 1,
    UnknownCall = 2,
    TooFew = 3,
    TooMany = 4,
    NoNumber = 5,
    LongScript = 6,
    NoLine = 7,
}

impl HasNumber for Reason {
    ghost number = { number_of };

    fn number(self) -> u32 {
        self as u32
    }
}

// Why there is no script: a line by its number that can't be read, with the reason's number, or a text that is too long. The reason stands as a number, since
// `put_message` promises its text for any number.
#[derive(Clone, Copy, Debug, PartialEq, Eq)]
pub enum Unassembled {
    Unread(u32, u32),
    TooLong,
}

// A script of so many bytes, or why there is none.
pub type Assembled = Result<usize, Unassembled>;
