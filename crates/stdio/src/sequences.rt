// The sequences of calls that a program runs on memories of its own: what the programs of both kernels share. `run` is the kernel's, and `report` prints what
// the program says of a memory at the end.
ghost use Rattle.std.specs.Prelude.{OnOk};
ghost use Rattle.stdio.specs.Words.{LosesWhole};

use crate::answers::{NONE, print_part};
use crate::input::{next_count, next_part};
use std::io;
use std::io::{Read, Write};

// The parts of a memory's sequence, at most 65,536: each part's calls are run, as many as there is room for answers, and these and the memory's hash printed.
fn run_parts<R: Read, W: Write, K: Fn(&mut [u32], &[u32], &mut [u64]) -> usize>(
    input: &mut R,
    output: &mut W,
    m: &mut [u32],
    run: &K,
) -> io::Result<()>
    requires { K.IsAlwaysCallable run.now }
    ensures rest { OnOk result (LosesWhole (R.remaining input.old) (R.remaining input.new)) }
{
    for _k in 0u32..65536 {
        let mut words = [0u32; 64];
        let n = next_part(input, &mut words)?;
        if n == 0 {
            return Ok(());
        }
        let mut answers = [NONE; 64];
        run(m, &words[0..n], &mut answers);
        print_part(output, &answers, m)?;
    }
    Ok(())
}

// At most 256 memories, none larger than `room`. Every word of a memory is 7 at first.
pub fn run_memories<R: Read, W: Write, K, P>(
    input: &mut R,
    output: &mut W,
    room: &mut [u32],
    run: K,
    report: P,
) -> io::Result<()>
where
    K: Fn(&mut [u32], &[u32], &mut [u64]) -> usize,
    P: Fn(&mut W, &[u32]) -> io::Result<()>,
    requires run { K.IsAlwaysCallable run }
    requires report { P.IsAlwaysCallable report }
    ensures rest { OnOk result (LosesWhole (R.remaining input.old) (R.remaining input.new)) }
{
    for _k in 0u32..256 {
        let n = next_count(input, room.len())?;
        if n == 0 {
            return Ok(());
        }
        let m = &mut room[0..n];
        m.fill(7);
        run_parts(input, output, m, &run)?;
        report(output, m)?;
    }
    Ok(())
}
