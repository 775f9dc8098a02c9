// Answers as calls pack them, refusal·2^32 or the word, in lines.
ghost use Rattle.std.specs.Io.KnownBytes.{Appends};
ghost use Rattle.std.specs.Prelude.{OnOk};
ghost use Rattle.stdio.specs.Lines.{answer_line, answer_lines, part_lines, refusal_text, verdict_line};

use crate::hashing::hash;
use std::io;
use std::io::Write;

// A number of an answer: "ok" and the word, or "no" and the refusal's number.
fn print_answer<W: Write>(output: &mut W, x: u64) -> io::Result<()>
    ensures { OnOk result (Appends (W.contents output.old) (W.contents output.new) (answer_line x)) }
{
    if x < 4294967296 {
        writeln!(output, "ok {x}")
    } else {
        let refusal = x / 4294967296;
        writeln!(output, "no {refusal}")
    }
}

// A number that is no answer.
// Numbers and no Options: by their contracts, `Ran`, the kernels write packed numbers into the answers that are lent.
pub const NONE: u64 = 0xFFFF_FFFF_FFFF_FFFF;

// The numbers of the answers, up to the first that no call wrote.
fn print_answers<W: Write>(output: &mut W, answers: &[u64]) -> io::Result<()>
    ensures { OnOk result (Appends (W.contents output.old) (W.contents output.new) (answer_lines answers.now)) }
{
    for x in answers {
        if *x == NONE {
            return Ok(());
        }
        print_answer(output, *x)?;
    }
    Ok(())
}

// The numbers of a part's answers, and the hash of the memory that it leaves.
pub fn print_part<W: Write>(output: &mut W, answers: &[u64], m: &[u32]) -> io::Result<()>
    ensures { OnOk result (Appends (W.contents output.old) (W.contents output.new) (part_lines answers.now m.now)) }
{
    print_answers(output, answers)?;
    let left = hash(m);
    writeln!(output, "{left}")
}

// The refusal's number of a packed answer, or 0.
pub fn print_refusal<W: Write>(output: &mut W, x: u64) -> io::Result<()>
    ensures { OnOk result (Appends (W.contents output.old) (W.contents output.new) (refusal_text x)) }
{
    let refusal = x / 4294967296;
    write!(output, " {refusal}")
}

// The verdict of a memory, packed.
pub fn print_verdict<W: Write>(output: &mut W, x: u64) -> io::Result<()>
    ensures { OnOk result (Appends (W.contents output.old) (W.contents output.new) (verdict_line x)) }
{
    write!(output, "verdict")?;
    print_refusal(output, x)?;
    writeln!(output, "")
}
