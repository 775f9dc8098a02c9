// delete_partition: its refusals, over memory that is only read, and its effect.
#![tactic(auto)]

pub mod deleting;
pub mod releases;

pub use deleting::delete_partition;
