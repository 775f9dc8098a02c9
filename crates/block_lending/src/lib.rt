// add and remove: a block of the caller goes to a child, and comes back.
#![tactic(auto, unfolding(common::specs::Row::first, common::specs::Row::reply, common::specs::Row::pass, block_rules::specs::Refusals::refusals, block_rules::specs::Refusals::refusals_of, block_rules::specs::Effects::effect, block_rules::specs::Effects::effect_of, block_rules::specs::Effects::add_to, block_rules::specs::Effects::remove_from, block_rules::specs::Calls::result, block_rules::specs::Calls::result_of, block_rules::specs::Calls::answer, block_rules::specs::Calls::after,))]

pub mod adding;
pub mod removing;

pub use adding::add;
pub use removing::remove;
