// "Header and length as above", and the root's own pages "as format leaves them".
#![tactic(auto)]

pub mod formatted;
pub mod header;
pub mod root;

pub use formatted::Sizes;
pub use header::header_test;
pub use root::root_pages;
