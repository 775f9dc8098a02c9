// add_vaddr: a page is lent to a child.
#![tactic(auto)]

pub mod adding;

pub use adding::add_vaddr;
