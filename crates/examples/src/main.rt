// The example texts beside it: each one's script is the one that is stored, and is replayed; and why those of `unread` can't be read.
#![tactic(auto)]

ghost use Rattle.std.specs.Io.{ReadsAtMost};

use std::io::Write;
use std::rt::Files;
use std::{fs, io};
use stdio::read_full;

// The file's bytes stand at the start of `bytes`; their number is returned.
fn read_file<R: Files>(rt: &R, path: &str, bytes: &mut [u8]) -> io::Result<usize>
    ensures { ReadsAtMost result bytes.new }
{
    let mut file = fs::open(rt, path)?;
    read_full(&mut file, bytes)
}

// Assembles the text and says whether the script is the stored one.
fn assemble_file<R: Files + Print>(rt: &R, text: &str, script: &str) -> io::Result<()> {
    let mut bytes = assembly::text_buffer();
    let n = read_file(rt, text, &mut bytes)?;
    let mut ours = assembly::script_buffer();
    let a = assembly::assemble(&bytes[..n], &mut ours);
    let k = assembly::script_length(a);
    let mut stored = [0u8; 65536];
    let m = read_file(rt, script, &mut stored)?;
    if ours[..k] == stored[..m] {
        println!(rt; " same")
    } else {
        println!(rt; " differs")
    }
}

// Replays the script.
fn replay_file<R: Files + Print>(rt: &R, script: &str) -> io::Result<()> {
    let mut bytes = [0u8; 65536];
    let n = read_file(rt, script, &mut bytes)?;
    let mut out = transcripts::transcript_buffer();
    let r = transcripts::replay(&bytes[..n], &mut out);
    io::writer(rt).write_all(&out[..r])
}

fn example<R: Files + Print>(rt: &R, name: &str, text: &str, script: &str) -> io::Result<()> {
    print!(rt; "{name}")?;
    assemble_file(rt, text, script)?;
    replay_file(rt, script)
}

// Prints what is said of a text that can't be read.
fn unread<R: Files + Print>(rt: &R, name: &str, text: &str) -> io::Result<()> {
    print!(rt; "{name}")?;
    let mut bytes = assembly::text_buffer();
    let n = read_file(rt, text, &mut bytes)?;
    let mut script = assembly::script_buffer();
    let a = assembly::assemble(&bytes[..n], &mut script);
    let mut message = assembly::message_buffer();
    let m = assembly::put_message(a, &mut message);
    print!(rt; " ")?;
    io::writer(rt).write_all(&message[..m])
}

fn main(rt: HostRuntime) -> io::Result<()> {
    example(&rt, "morning", "morning.txt", "morning.script")?;
    example(&rt, "deep", "deep.txt", "deep.script")?;
    example(&rt, "eleventh", "eleventh.txt", "eleventh.script")?;
    example(&rt, "refusals", "refusals.txt", "refusals.script")?;
    unread(&rt, "pages", "unread/pages.txt")?;
    unread(&rt, "unknown", "unread/unknown.txt")?;
    unread(&rt, "few", "unread/few.txt")?;
    unread(&rt, "many", "unread/many.txt")?;
    unread(&rt, "number", "unread/number.txt")?;
    unread(&rt, "long", "unread/long.txt")?;
    unread(&rt, "empty", "unread/empty.txt")
}
