// prepare: a chain of three pages becomes a child's tables.
#![tactic(auto)]

pub mod chains;
pub mod preparing;

pub use preparing::prepare;
