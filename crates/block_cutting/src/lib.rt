// cut and merge: a block of the caller becomes two pieces, and two pieces become one.
#![tactic(auto, unfolding(common::specs::Row::first, common::specs::Row::reply, common::specs::Row::pass, block_rules::specs::Refusals::refusals, block_rules::specs::Refusals::refusals_of, block_rules::specs::Effects::effect, block_rules::specs::Effects::effect_of, block_rules::specs::Effects::cut_at, block_rules::specs::Effects::merge_two, block_rules::specs::Calls::result, block_rules::specs::Calls::result_of, block_rules::specs::Calls::answer, block_rules::specs::Calls::after,))]

pub mod cutting;
pub mod merging;

pub use cutting::cut;
pub use merging::merge;
