// Replay: the whole script is checked before anything is written.
ghost use Rattle.std.specs.Prelude.{◌≡◌, true, ◌*◌, ◌≤◌, length};
ghost use Rattle.rules.specs.Bytes.{word_in};
ghost use Rattle.rules.specs.Replay;
ghost use Rattle.script.specs.Walk.{is_script};
ghost use Rattle.script.specs.Lines.{Put};

use crate::turns::transcribe;
use kernel::format;
use pages::{page_words, width_of};
use record::word_in;
use script::{put_bad_script, well_formed};

// The words of a memory of N pages.
fn memory_words(bytes: &[u8]) -> usize
    requires { is_script (Replay.script 6 bytes.now) ≡ true }
    ensures { (result ≡ word_in bytes.now 0 * 64) × (result ≤ 16384) }
{
    word_in(bytes, 0) as usize * page_words(width_of(0)) as usize
}

// Room for a memory of 256 pages, the most there are.
fn most_words() -> [u32; 16384]
    ensures { 16384 ≡ length result }
{
    [0; 16384]
}

// Formats m, a memory of N pages of the old edition, which refuses no such memory, and runs the script on it.
fn run(bytes: &[u8], m: &mut [u32], out: &mut [u8]) -> usize
    requires bytes_value { is_script (Replay.script 6 bytes.now) ≡ true }
    requires sized { length m.old ≡ word_in bytes.now 0 * 64 }
    requires room { 32768 ≤ length out.old }
    ensures { Put out.old out.new 0 result (Replay.replay 6 bytes.now) }
{
    let _ = format(m, 0);
    transcribe(bytes, m, out)
}

// The first r bytes of out are the transcript of the script; what is none "prints only `bad script`".
pub fn replay(bytes: &[u8], out: &mut [u8; 32768]) -> usize
    ensures { Put out.old out.new 0 result (Replay.replay 6 bytes.now) × (result ≤ length out.new) }
{
    if !well_formed(width_of(0), bytes) {
        return put_bad_script(out);
    }
    let mut words = most_words();
    let e = memory_words(bytes);
    run(bytes, &mut words[..e], out)
}
