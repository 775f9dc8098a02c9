// Load and store as the hardware walk would do them.
#![tactic(auto, unfolding(common::specs::Row::first, common::specs::Row::reply, common::specs::Row::pass, rules::specs::Refusals::refusals, rules::specs::Effects::effect, rules::specs::Calls::result, rules::specs::Calls::answer, rules::specs::Calls::after,))]

pub mod words;

pub use words::{load, store};
