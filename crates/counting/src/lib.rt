// page_count: how many pages a child lacks for a mapping.
#![tactic(auto, unfolding(common::specs::Row::first, common::specs::Row::reply, common::specs::Row::pass, rules::specs::Refusals::refusals, rules::specs::Effects::effect, rules::specs::Calls::result, rules::specs::Calls::answer, rules::specs::Calls::after,))]

pub mod counting;

pub use counting::page_count;
