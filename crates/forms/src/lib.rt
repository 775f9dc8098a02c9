// "the words have the forms above": the tests of a partition's own pages and of its children, each as the crate soundness has it.
#![tactic(auto)]

pub mod children;
pub mod indices;
pub mod partitions;
pub mod tables;
pub mod threes;

pub use children::child_forms;
pub use partitions::forms_test;
pub use tables::entry_test;
