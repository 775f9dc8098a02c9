// "Otherwise a line `N F`, then a line for each record."
ghost use Rattle.std.specs.Prelude.{◌≡◌, true, ◌≤◌, length};
ghost use Rattle.memory.specs.Format.{format};
ghost use Rattle.rules.specs.Bytes.{word_in};
ghost use Rattle.rules.specs.Replay;
ghost use Rattle.script.specs.Walk.{is_script};
ghost use Rattle.script.specs.Lines.{Put};

use crate::steps::step;
use pages::width_of;
use record::word_in;
use script::{next_record, put_answer, put_first_line};

// The first line, and then the records in turn on formatted memory m.
pub fn transcribe(bytes: &[u8], m: &mut [u32], out: &mut [u8]) -> usize
    requires bytes_value { is_script (Replay.script 6 bytes.now) ≡ true }
    requires formatted { m.old ≡ format 6 (word_in bytes.now 0) }
    requires room { 32768 ≤ length out.old }
    ensures { Put out.old out.new 0 result (Replay.replay 6 bytes.now) }
{
    let mut at = put_first_line(width_of(0), word_in(bytes, 0), out);
    let count = word_in(bytes, 4);
    let mut i = word_in(bytes, 8) as usize;
    for k in 0..count {
        let a = step(m, bytes, i);
        at = put_answer(out, at, k + 1, a);
        i = next_record(bytes, i);
    }
    at
}
