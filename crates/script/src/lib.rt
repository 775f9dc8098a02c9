// A replay script and its transcript: what needs no kernel.
#![tactic(auto)]

pub mod arguments;
pub mod digits;
pub mod header;
pub mod lines;
pub mod records;

pub use arguments::{argument_count, known_call};
pub use digits::{put, put_decimal};
pub use header::{good_header, well_formed};
pub use lines::{put_answer, put_bad_script, put_first_line, put_line};
pub use records::{all_records, argument, next_record, whole_record};
