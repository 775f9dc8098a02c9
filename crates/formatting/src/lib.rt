// "Format wipes all words, writes the header, root descriptor page 1, directory 2, shadow 1 page 3, shadow 2 page 4, list 5, threes from page 6".
#![tactic(auto)]

pub mod filling;
pub mod root;
pub mod sizes;

pub use filling::format;
