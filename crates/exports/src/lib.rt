// The interface for programs in C and Rust. Every name begins with the project's, since a name is the whole program's there.
#![tactic(auto)]

pub mod halves;
pub mod numbered;
pub mod pauses;
pub mod records;
pub mod verdicts;
