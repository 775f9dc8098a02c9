// What a call of the block kernel answers: its word where it is done, else the refusal; and the six words of a block that is told.
#![tactic(auto)]

pub mod refusals;
pub mod told;

pub use common::{HasNumber, pack};
pub use refusals::{Answer, Refusal};
pub use told::{TOLD_WORDS, Told};
