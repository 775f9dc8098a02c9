// Scripts by hand: the text is standard input and the script standard output; of a text that can't be read only the message is written, to standard error.
#![tactic(auto)]

ghost use Rattle.assembly.specs.Assembled.{assembled};
ghost use Rattle.assembly.specs.Messages.{message};
ghost use Rattle.assembly.specs.Told.{script_of};
ghost use Rattle.std.specs.Io.KnownBytes.{Appends};
ghost use Rattle.std.specs.Prelude.{IfSome, OnOk, take};

use std::io;
use std::io::{Read, Write};
use stdio::read_full;

// Reads the text, of which one byte more than the longest is enough, and writes the script and the message, one of which is empty.
fn assemble<R: Read, W: Write, E: Write>(
    input: &mut R,
    output: &mut W,
    errors: &mut E,
) -> io::Result<()>
    ensures script { OnOk result (IfSome (R.remaining input.old)
        (λ bs. Appends (W.contents output.old) (W.contents output.new) (script_of (assembled (take 65537 bs))))) }
    ensures said { OnOk result (IfSome (R.remaining input.old)
        (λ bs. Appends (E.contents errors.old) (E.contents errors.new) (message (assembled (take 65537 bs))))) }
{
    let mut text = assembly::text_buffer();
    let n = read_full(input, &mut text)?;
    let mut script = assembly::script_buffer();
    let a = assembly::assemble(&text[..n], &mut script);
    let s = assembly::script_length(a);
    output.write_all(&script[..s])?;
    let mut message = assembly::message_buffer();
    let m = assembly::put_message(a, &mut message);
    errors.write_all(&message[..m])
}

fn main(rt: HostRuntime) -> io::Result<()> {
    assemble(&mut rt.reader(), &mut io::writer(&rt), &mut rt.stderr())
}
