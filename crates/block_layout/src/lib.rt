// The layout of the block kernel's memory in code: header, table, descriptors, structures and slots. A partition is named by the index d of its descriptor,
// a block of its pool by its number n. What isn't there is read as 0, and writing there does nothing, so no index and no number needs a bound.
#![tactic(auto)]

pub mod blocks;
pub mod partitions;
pub mod searches;
pub mod sizes;
pub mod slots;
pub mod writes;

pub use blocks::{Block, block_in, block_of};
pub use partitions::{current, entry, is_partition, is_root, level, number, parent, structure};
pub use searches::{block_at, empty_structure, entry_of, free_number, free_structure};
pub use sizes::{
    DESCRIPTOR_WORDS, FIRST_NUMBER, MOST_ENABLED, MOST_STRUCTURES, NUMBERS_END, SLOT_WORDS,
    STRUCTURE_WORDS, first_byte, permitted, root_of,
};
pub use slots::{
    child, end, field, holder, link, named, next, own, place, previous, rights, source, start,
    used, word_from,
};
pub use writes::{put_slot, wipe};
