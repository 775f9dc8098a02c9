// Replay: from the bytes of a script to the bytes of its transcript.
#![tactic(auto)]

mod buffers;
mod replays;
mod steps;
mod turns;

pub use buffers::transcript_buffer;
pub use replays::replay;
