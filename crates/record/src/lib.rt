// The start-up record: 76 bytes, little-endian: magic, begin, end and 64 revision bytes.
#![tactic(auto)]

pub mod bytes;
pub mod reader;
pub mod writer;

pub use bytes::{little_endian, put_bytes, word_in};
pub use pages::flat_pages;
pub use reader::{Reading, read_record, record_begin, record_end, record_refusal, revision};
pub use writer::write;
