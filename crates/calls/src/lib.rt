// The sixteen open calls on any lent memory, and document 01's by their numbers.
#![tactic(auto, unfolding(rules::specs::Editions::answer, rules::specs::Editions::after, rules::specs::Editions::context, rules::specs::Replay::call_of, crate::specs::Numbers::numbered,))]

mod calls;
mod numbers;

pub use calls::{
    add_vaddr, collect, create_partition, delete_partition, dispatch, enter, format, leave, load,
    mapped_in_child, notify, page_count, prepare, remove_vaddr, resume, store,
};
pub use numbers::numbered_call;
