// "When memory is sound": a judgement of any lent memory. It reads words only, and each test is one of the crates soundness and judging.
#![tactic(auto)]

pub mod cells;
pub mod children;
pub mod cycle;
pub mod partitions;
pub mod root;
pub mod sound;
pub mod tree;

pub use sound::is_sound;
