// The block kernel: the open calls, a call by its number, the run of a sequence, and the verdict of a memory.
#![tactic(auto, unfolding(common::specs::Row::first, common::specs::Row::reply))]

mod numbers;
mod sequences;
mod verdicts;

pub use block_answers::{Answer, Refusal, Told, pack};
pub use block_calls::{
    add, collect, create, cut, delete, enable, enter, find, format, leave, merge, prepare,
    read_enabled, remove,
};
pub use numbers::{Numbered, by_number};
pub use sequences::run;
pub use verdicts::verdict;
