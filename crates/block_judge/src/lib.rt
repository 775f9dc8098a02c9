// The judge of the block kernel: one pass over the table. It follows no chain and descends no tree, and it looks at each table word, descriptor, structure
// and slot once, so that it ends soon on any memory.
#![tactic(auto)]

pub mod descriptors;
pub mod headers;
pub mod slots;
pub mod structures;
pub mod table;

pub use table::is_sound;
