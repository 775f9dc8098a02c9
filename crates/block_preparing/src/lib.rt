// prepare and collect: a block of the caller holds a structure, and an empty structure's block comes back.
#![tactic(auto, unfolding(common::specs::Row::first, common::specs::Row::reply, common::specs::Row::pass, block_rules::specs::Refusals::refusals, block_rules::specs::Refusals::refusals_of, block_rules::specs::Effects::effect, block_rules::specs::Effects::effect_of, block_rules::specs::Effects::prepare_for, block_rules::specs::Effects::collect_from, block_rules::specs::Calls::result, block_rules::specs::Calls::result_of, block_rules::specs::Calls::collected, block_rules::specs::Calls::answer, block_rules::specs::Calls::after,))]

pub mod collecting;
pub mod preparing;

pub use collecting::collect;
pub use preparing::prepare;
