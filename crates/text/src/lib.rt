// Lines, words, numbers and calls' names in a text.
#![tactic(auto)]

pub mod names;
pub mod numbers;
pub mod parts;
