// Words of a lent memory and parts of it, and answers, for any kernel.
#![tactic(auto)]

pub mod answers;
pub mod parts;
pub mod replies;
pub mod sequences;
pub mod words;

pub use answers::{HasNumber, pack};
pub use parts::{clear, copy, put_words, wipe_words};
pub use replies::write_words;
pub use words::{read, write};
