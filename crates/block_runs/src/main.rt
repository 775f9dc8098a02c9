// Runs sequences of the block kernel's calls and prints the answers. The input is little-endian words, for each memory the number of its words (0 ends the
// input), then parts: for each the number of its words (0 ends the memory's parts) and these, calls one behind the other. Every word of a memory is 7 at
// first. The output has a line for each number of the answers, one a call and seven a call that tells a block, and, for each part, the memory's hash; then
// the verdict of the memory.
#![tactic(auto)]

use block_answers::pack;
use block_kernel::verdict;
use std::io;
use std::io::Write;
use stdio::{print_verdict, run_memories};

fn print_end<W: Write>(output: &mut W, m: &[u32]) -> io::Result<()> {
    print_verdict(output, pack(verdict(m)))
}

// Memories of at most 16,640 words: the most that is permitted, and 1 KiB.
fn main(rt: HostRuntime) -> io::Result<()> {
    let mut input = rt.reader();
    let mut output = io::writer(&rt);
    let mut room = [0u32; 16640];
    let run = |m: &mut [u32], calls: &[u32], answers: &mut [u64]| block_kernel::run(
        m, calls, answers,
    );
    run_memories(&mut input, &mut output, &mut room, run, print_end)
}
