// Runs sequences of calls and prints the answers. The input is little-endian words, for each memory the number of its words (0 ends the input), then
// parts: for each the number of its words (0 ends the memory's parts) and these, calls one behind the other. Every word of a memory is 7 at first. The
// output has a line for each number of the answers, one a call and twelve a resume, and, for each part, the memory's hash; then the verdict of the
// memory, and what the start-up record's writer and reader say of it.
#![tactic(auto)]

pub mod records;

use records::print_records;
use std::io;
use stdio::run_memories;

// Memories of at most 20,480 words.
fn main(rt: HostRuntime) -> io::Result<()> {
    let mut input = rt.reader();
    let mut output = io::writer(&rt);
    let mut room = [0u32; 20480];
    let run = |m: &mut [u32], calls: &[u32], answers: &mut [u64]| kernel::run(m, calls, answers);
    run_memories(&mut input, &mut output, &mut room, run, print_records)
}
