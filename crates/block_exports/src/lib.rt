// The block kernel's interface for programs in C and Rust. Every name begins with the project's, since a name is the whole program's there.
#![tactic(auto)]

pub mod calls;
pub mod telling;
pub mod verdicts;
