// What a call answers: its word where it is done, else the refusal.
#![tactic(auto)]

pub mod refusals;

pub use common::{HasNumber, pack};
pub use refusals::{Answer, Refusal};
