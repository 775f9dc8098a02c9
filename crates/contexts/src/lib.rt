// What notify, dispatch and resume do and ask (document 02, L8): "between a partition and its child, or its parent under address 0".
#![tactic(auto, unfolding(common::specs::Row::first, rules::specs::Conditions::target, rules::specs::Effects::switch,))]

pub mod slot_pages;
pub mod slots;
pub mod switching;
pub mod targets;
