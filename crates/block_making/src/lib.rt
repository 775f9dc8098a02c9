// create and delete: a partition is made in a block of the caller, and goes with all that is below it.
#![tactic(auto, unfolding(common::specs::Row::first, common::specs::Row::reply, common::specs::Row::pass, block_rules::specs::Refusals::refusals, block_rules::specs::Refusals::refusals_of, block_rules::specs::Effects::effect, block_rules::specs::Effects::effect_of, block_rules::specs::Calls::result, block_rules::specs::Calls::result_of, block_rules::specs::Calls::answer, block_rules::specs::Calls::after))]

pub mod creating;
pub mod deleting;
pub mod wiping;

pub use creating::create;
pub use deleting::delete;
