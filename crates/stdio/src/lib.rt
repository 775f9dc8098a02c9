// Input and output of the programs that run calls: little-endian words are read; answers, a memory's hash and its verdict are written in lines.
#![tactic(auto)]

mod answers;
mod hashing;
mod input;
mod sequences;

pub use answers::{NONE, print_part, print_refusal, print_verdict};
pub use hashing::{hash, hash_all, hash_bytes};
pub use input::{next_count, next_part, next_word, read_full};
pub use sequences::run_memories;
