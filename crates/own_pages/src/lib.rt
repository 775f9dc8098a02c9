// Words that are addresses or 0, and the pages and pairs that a partition's descriptor and list name.
#![tactic(auto)]

pub mod addresses;
pub mod own;
pub mod pairs;
pub mod roots;
pub mod words;

pub use addresses::{in_memory, is_address, memory_end, physical_address, virtual_address};
pub use own::{Own, Three};
pub use pairs::{list_pair, pairs_form};
pub use words::{zero_from, zeros};
