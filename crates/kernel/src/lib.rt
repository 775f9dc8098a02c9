// The kernel: the open calls, a call by its number, the run of a sequence, and the verdict of a memory.
#![tactic(auto)]

mod numbers;
mod replies;
mod sequences;
mod verdicts;

pub use calls::{
    add_vaddr, collect, create_partition, delete_partition, dispatch, enter, format, leave, load,
    mapped_in_child, notify, page_count, prepare, remove_vaddr, resume, store,
};
pub use numbers::by_number;
pub use resuming::Resumed;
pub use sequences::run;
pub use verdicts::verdict;
