// mapped_in_child: the child that a page is lent to.
#![tactic(auto, unfolding(common::specs::Row::first, common::specs::Row::reply, common::specs::Row::pass, rules::specs::Refusals::refusals, rules::specs::Effects::effect, rules::specs::Calls::result, rules::specs::Calls::answer, rules::specs::Calls::after,))]

pub mod asking;

pub use asking::mapped_in_child;
