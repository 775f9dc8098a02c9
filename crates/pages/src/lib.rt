// The layout of the memory in code: words, page numbers, addresses, tables and sizes, for every index width b.
#![tactic(auto)]

pub mod addresses;
pub mod counts;
pub mod entries;
pub mod mappings;
pub mod partitions;
pub mod parts;
pub mod sizes;
pub mod tables;
pub mod widths;
pub mod words;

pub use addresses::{
    PhysicalPage, VirtualPage, address, address_of, bad_address, bad_page, directory_index, frame,
    page_of, place, table_index, virtual_page,
};
pub use common::{clear, copy, put_words, read, write};
pub use counts::count_of;
pub use entries::{accessible, entry_of, flags_added, has_rights, rights};
pub use mappings::{above, in_hand, lent, mapping, set_above, set_lent, set_mapping, table_for};
pub use partitions::{
    current, directory, flag, list, named, pages, parent, set_flag, shadow1, shadow2, threes,
};
pub use parts::{fill_page, wipe_page, words_of};
pub use sizes::{flat_page, flat_pages, threes_for};
pub use tables::table_word;
pub use widths::{IndexWidth, edition_of, most_flag, page_bytes, page_words, width, width_of};
pub use words::{index, read_word, write_word};
