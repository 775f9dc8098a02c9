// The fourteen calls of the block kernel on any lent memory, and the same by their numbers.
#![tactic(auto, unfolding(block_sequences::specs::Numbers::numbered, block_sequences::specs::Numbers::service_of))]

pub mod calls;
pub mod numbers;

pub use calls::{
    add, collect, create, cut, delete, enable, enter, find, format, leave, merge, prepare,
    read_enabled, remove,
};
pub use numbers::{telling, tells_block, untold};
