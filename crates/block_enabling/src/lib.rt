// Enable: a block of a partition's pool is enabled, or disabled.
#![tactic(auto, unfolding(common::specs::Row::first, common::specs::Row::reply, common::specs::Row::pass, block_rules::specs::Refusals::refusals, block_rules::specs::Refusals::refusals_of, block_rules::specs::Effects::effect, block_rules::specs::Effects::effect_of, block_rules::specs::Effects::enable_in, block_rules::specs::Calls::result, block_rules::specs::Calls::result_of, block_rules::specs::Calls::enabled_at, block_rules::specs::Calls::answer, block_rules::specs::Calls::after,))]

pub mod enabling;

pub use enabling::enable;
