// collect: a child's three tables come back as a chain of pages.
#![tactic(auto)]

pub mod collecting;

pub use collecting::collect;
