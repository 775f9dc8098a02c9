// The rows of a partition's tables swept once: its pages are marked, and what is asked of their number is counted.
#![tactic(auto)]

pub mod marks;
pub mod rows;
pub mod tally;

pub use marks::{mark_kernel, mark_outside};
pub use rows::{Used, block_of, next_word, table_of, used_places};
pub use tally::lent_test;
