// The start-up record of a lent memory, written: the judge is asked first.
#![tactic(auto)]

ghost use Rattle.std.specs.Prelude.{◌≡◌};
ghost use Rattle.memory.specs.Edition.{width};
ghost use Rattle.answers.specs.Said.{said};
ghost use Rattle.rules.specs.Record.{writer_answer, after_writer};

use answers::Answer;

// "The writer takes sound memory, 64 or more revision bytes (the first 64 count) and a buffer of 76 or more; bytes past 76 stay."
pub fn write_record(m: &[u32], revision: &[u8], out: &mut [u8]) -> Answer
    ensures { (said result ≡ writer_answer (width m.now) m.now revision.now out.old)
        × (out.new ≡ after_writer (width m.now) m.now revision.now out.old) }
{
    let b = pages::width(m);
    let good = judge::is_sound(m);
    record::write(b, m, good, revision, out)
}
