// Judges memories: of each it says whether it is sound or damaged. The input is little-endian words, for each memory its number of pages, how many of
// its words are not 0, and index and value of each.
#![tactic(auto)]

ghost use Rattle.std.specs.Prelude.{◌≤◌};

use std::io;
use std::io::{Read, Write};
use stdio::next_word;

// The words that are not 0.
fn put_words<R: Read>(input: &mut R, m: &mut [u32]) -> io::Result<()> {
    let n = next_word(input)?;
    for _k in 0..n {
        let i = next_word(input)?;
        let x = next_word(input)?;
        pages::write(m, i as usize, x);
    }
    Ok(())
}

// The memory's own words.
fn judge_words<R: Read, W: Write>(input: &mut R, output: &mut W, m: &mut [u32]) -> io::Result<()> {
    put_words(input, m)?;
    if judge::is_sound(m) {
        writeln!(output, "sound")
    } else {
        writeln!(output, "damaged")
    }
}

// A memory of n pages.
fn judge_pages<R: Read, W: Write>(input: &mut R, output: &mut W, n: u32) -> io::Result<()>
    requires { n ≤ 256 }
{
    let mut m = [0u32; 16384];
    let end = (n as usize) * 64;
    judge_words(input, output, &mut m[0..end])
}

// At most 64 memories, up to the end of the input.
fn main(rt: HostRuntime) -> io::Result<()> {
    let mut input = rt.reader();
    let mut output = io::writer(&rt);
    for _k in 0u32..64 {
        let n = next_word(&mut input)?;
        if n == 0 {
            return Ok(());
        }
        if 256 < n {
            return Ok(());
        }
        judge_pages(&mut input, &mut output, n)?;
    }
    Ok(())
}
