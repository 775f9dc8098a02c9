// What several calls do and ask: pages taken and returned, the walk up the ancestors, the conditions of refusals and how rows of them begin.
#![tactic(auto)]

pub mod ancestors;
pub mod conditions;
pub mod pages_moved;
pub mod rows;
pub mod saved;

pub use ancestors::{depth, mark};
pub use conditions::{
    child_of, inaccessible, lacks, list_full, no_child, no_three, not_in_hand, unmapped,
};
pub use pages_moved::{return_all, return_page, take_all, take_page};
pub use rows::{child_refusal, page_refusal};
pub use saved::{frame_at, save};
