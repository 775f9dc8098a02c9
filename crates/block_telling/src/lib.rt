// The two calls that tell a block: read enabled and find.
#![tactic(auto, unfolding(common::specs::Row::first, common::specs::Row::reply, common::specs::Row::pass, block_rules::specs::Refusals::refusals, block_rules::specs::Refusals::refusals_of, block_rules::specs::Effects::effect, block_rules::specs::Effects::effect_of, block_rules::specs::Calls::result, block_rules::specs::Calls::result_of, block_rules::specs::Calls::is_block, block_rules::specs::Calls::tells, block_rules::specs::Calls::told_of, block_rules::specs::Calls::told, block_rules::specs::Calls::answer, block_rules::specs::Calls::after,))]

pub mod telling;

pub use telling::{find, read_enabled};
