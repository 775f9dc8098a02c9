// create_partition: its refusals, over memory that is only read, and its effect.
#![tactic(auto)]

pub mod creating;
pub mod groups;

pub use creating::create_partition;
