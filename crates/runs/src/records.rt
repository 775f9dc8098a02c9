// The verdict of a memory, and its start-up record, written and read: a record of 76 bytes, and one with a byte too few.
use std::io;
use std::io::Write;
use stdio::{hash_bytes, print_refusal, print_verdict};

fn print_number<W: Write>(output: &mut W, x: u32) -> io::Result<()> {
    write!(output, " {x}")
}

// The length and the hash of the part that is the revision.
fn print_revision<W: Write>(output: &mut W, bytes: &[u8]) -> io::Result<()> {
    let part = record::revision(bytes);
    let length = part.len();
    write!(output, " {length}")?;
    print_number(output, hash_bytes(part))
}

// What the writer refused, what the reader refuses, begin, end and revision. No two bytes of the revision are equal.
fn print_record<W: Write>(output: &mut W, m: &[u32], out: &mut [u8]) -> io::Result<()> {
    let revision = b"ABCDEFGHIJKLMNOPQRSTUVWXYZabcdefghijklmnopqrstuvwxyz0123456789+/";
    let written = answers::pack(startup::write_record(m, revision, out));
    write!(output, "record")?;
    print_refusal(output, written)?;
    print_refusal(
        output,
        answers::pack(record::record_refusal(out).map(|_| 0)),
    )?;
    print_number(output, record::record_begin(out))?;
    print_number(output, record::record_end(out))?;
    print_revision(output, out)?;
    writeln!(output, "")
}

pub fn print_records<W: Write>(output: &mut W, m: &[u32]) -> io::Result<()> {
    print_verdict(output, answers::pack(kernel::verdict(m)))?;
    let mut out = [0u8; 76];
    print_record(output, m, &mut out)?;
    let mut short = [0u8; 75];
    print_record(output, m, &mut short)
}
