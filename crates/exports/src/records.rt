// The start-up record: the writer, and the reader's four answers.
ghost use Rattle.std.specs.Prelude.{◌≡◌, length, take, drop};
ghost use Rattle.memory.specs.Edition.{width};
ghost use Rattle.rules.specs.Row.{first};
ghost use Rattle.rules.specs.Record.{writer_refusals, after_writer, reader_refusal, record_begin, record_end, revision_of};

use crate::halves::upper;
use answers::{HasNumber, pack};

// The record of the memory, written at the start of `out`: 0, or the refusal.
#[unsafe(no_mangle)]
pub extern "C" fn tumashqin_write_record(words: &[u32], revision: &[u8], out: &mut [u8]) -> u32
    ensures { (result ≡ first (writer_refusals (width words.now) words.now revision.now out.old))
        × (out.new ≡ after_writer (width words.now) words.now revision.now out.old) }
{
    upper(pack(startup::write_record(words, revision, out)))
}

// 0, or why the bytes are no record: 17 or 18, a number since C is given one.
#[unsafe(no_mangle)]
pub extern "C" fn tumashqin_record_refusal(bytes: &[u8]) -> u32
    ensures { result ≡ reader_refusal bytes.now }
{
    match record::record_refusal(bytes) {
        Ok(()) => 0,
        Err(refusal) => refusal.number(),
    }
}

// 0 where the record is refused.
#[unsafe(no_mangle)]
pub extern "C" fn tumashqin_record_begin(bytes: &[u8]) -> u32
    ensures { result ≡ record_begin bytes.now }
{
    record::record_begin(bytes)
}

// 0 where the record is refused.
#[unsafe(no_mangle)]
pub extern "C" fn tumashqin_record_end(bytes: &[u8]) -> u32
    ensures { result ≡ record_end bytes.now }
{
    record::record_end(bytes)
}

// How many bytes the revision has that is handed back: 64, or 0 exactly where the record is refused. They are the bytes from byte 12 on.
// A C function cannot return a part of a slice, so that the part is told by its length.
#[unsafe(no_mangle)]
pub extern "C" fn tumashqin_record_revision_length(bytes: &[u8]) -> usize
    ensures { (result ≡ length (revision_of bytes.now)) × (revision_of bytes.now ≡ take result (drop 12 bytes.now)) }
{
    let part = record::revision(bytes);
    part.len()
}
