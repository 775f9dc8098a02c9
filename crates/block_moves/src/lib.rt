// What several calls do and ask: blocks disabled, taken, given back and freed, and the conditions of refusals.
#![tactic(auto, unfolding(common::specs::Row::first))]

pub mod changes;
pub mod conditions;

pub use changes::{disable, free_slot, give_back, take_as};
pub use conditions::{block_refusal, child_refusal, no_room, not_in_hand, partition_refusal};
