// resume: the target becomes current, and the words of its saved context are answered. It is given the judge's verdict.
#![tactic(auto, unfolding(common::specs::Row::first, common::specs::Row::reply, common::specs::Row::pass, rules::specs::Refusals::refusals, rules::specs::Effects::effect, rules::specs::Calls::result, rules::specs::Calls::answer, rules::specs::Calls::after, rules::specs::Effects::switch, rules::specs::Effects::restore, rules::specs::Conditions::target, rules::specs::Calls::resumed, rules::specs::Calls::context,))]

pub mod resuming;

pub use resuming::{Resumed, resume};
