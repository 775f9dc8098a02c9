// notify and dispatch: the target becomes current, with the caller's context saved or not. Each is given the judge's verdict.
#![tactic(auto, unfolding(common::specs::Row::first, common::specs::Row::reply, common::specs::Row::pass, rules::specs::Refusals::refusals, rules::specs::Effects::effect, rules::specs::Calls::result, rules::specs::Calls::answer, rules::specs::Calls::after, rules::specs::Effects::switch, rules::specs::Effects::save, rules::specs::Conditions::target,))]

pub mod dispatching;
pub mod notifying;

pub use dispatching::dispatch;
pub use notifying::notify;
