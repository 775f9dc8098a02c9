// Replay as a program: the script is standard input, or the file that the first argument names; the transcript is standard output.
#![tactic(auto)]

ghost use Rattle.rules.specs.Replay;
ghost use Rattle.std.specs.Io.KnownBytes.{Appends};
ghost use Rattle.std.specs.Prelude.{◌≡◌, IfSome, OnOk, length, take};

use anyhow::Context;
use std::io::{Read, Write};
use std::{env, fs, io};
use stdio::read_full;

// The longest script, and one byte more: input that is longer still is a bad script too.
fn script_buffer() -> [u8; 4097]
    ensures { 4097 ≡ length result }
{
    [0; 4097]
}

// Reads the script and writes the transcript.
fn replay<R: Read, W: Write>(input: &mut R, output: &mut W) -> io::Result<()>
    ensures { OnOk result (IfSome (R.remaining input.old)
        (λ bs. Appends (W.contents output.old) (W.contents output.new) (Replay.replay 6 (take 4097 bs)))) }
{
    let mut bytes = script_buffer();
    let n = read_full(input, &mut bytes)?;
    let mut out = transcripts::transcript_buffer();
    let r = transcripts::replay(&bytes[..n], &mut out);
    output.write_all(&out[..r])
}

// The file that the first argument names, or standard input where there is none.
fn main(rt: HostRuntime) -> anyhow::Result<()> {
    let mut output = io::writer(&rt);
    match env::args(&rt)?.nth(1) {
        None => replay(&mut rt.reader(), &mut output)?,
        Some(path) => {
            let mut file = fs::open(&rt, &path).context(format_args!("{path}"))?;
            replay(&mut file, &mut output)?
        }
    }
    Ok(())
}
