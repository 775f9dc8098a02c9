// remove_vaddr: a page lent to a child is taken back.
#![tactic(auto, unfolding(common::specs::Row::first, common::specs::Row::reply, common::specs::Row::pass, rules::specs::Refusals::refusals, rules::specs::Effects::effect, rules::specs::Calls::result, rules::specs::Calls::answer, rules::specs::Calls::after, rules::specs::Effects::remove,))]

pub mod removing;

pub use removing::remove_vaddr;
