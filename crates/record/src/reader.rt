// The reader: "needs 76 bytes (17, then 18) and ignores more".
ghost use Rattle.std.specs.Prelude.{◌≡◌, cond, ◌≤◌, eqb};
ghost use Rattle.rules.specs.Bytes.{word_in};
ghost use Rattle.rules.specs.Row;
ghost use Rattle.rules.specs.Record.{has_magic, reader_refusal, record_begin, record_end, revision_of};
ghost use Rattle.answers.specs.Said.{refusal_in, said};

use crate::bytes::{MAGIC, word_in};
use answers::{Answer, Refusal};

// "it answers begin and end, both 0 when it refuses": the clause of `read_record` says so of a refusal too, which keeps the two words beside the answer.
#[derive(Clone, Copy)]
pub struct Reading {
    pub answer: Answer,
    pub begin: u32,
    pub end: u32,
}

fn has_magic(bytes: &[u8]) -> bool
    ensures { result ≡ has_magic bytes.now }
{
    bytes.starts_with(&MAGIC)
}

// 17 for too few bytes, or 18 for a wrong magic or a begin above the end.
pub fn record_refusal(bytes: &[u8]) -> Result<(), Refusal>
    ensures { refusal_in result ≡ reader_refusal bytes.now }
{
    if bytes.len() < 76 {
        return Err(Refusal::Short);
    }
    if !has_magic(bytes) {
        return Err(Refusal::Magic);
    }
    if word_in(bytes, 8) < word_in(bytes, 4) {
        return Err(Refusal::Magic);
    }
    Ok(())
}

// The word at byte i of a record, or 0 when it is refused, as `tumashqin_record_begin` and `tumashqin_record_end` answer C.
fn word_or_zero(bytes: &[u8], i: usize) -> u32
    requires { i ≤ 72 }
    ensures { result ≡ cond (eqb (reader_refusal bytes.now) 0) (word_in bytes.now i) 0 }
{
    match record_refusal(bytes) {
        Ok(()) => word_in(bytes, i),
        Err(_) => 0,
    }
}

pub fn record_begin(bytes: &[u8]) -> u32
    ensures { result ≡ record_begin bytes.now }
{
    word_or_zero(bytes, 4)
}

pub fn record_end(bytes: &[u8]) -> u32
    ensures { result ≡ record_end bytes.now }
{
    word_or_zero(bytes, 8)
}

pub fn read_record(bytes: &[u8]) -> Reading
    ensures { (said result.answer ≡ Row.reply (reader_refusal bytes.now) 0)
        × (result.begin ≡ record_begin bytes.now)
        × (result.end ≡ record_end bytes.now) }
{
    Reading {
        answer: record_refusal(bytes).and(Ok(0)),
        begin: record_begin(bytes),
        end: record_end(bytes),
    }
}

// "hands back the revision as a part of the caller's bytes, an empty part exactly when it refuses"
pub fn revision(bytes: &[u8]) -> &[u8]
    ensures { result.now ≡ revision_of bytes.now }
{
    match record_refusal(bytes) {
        Ok(()) => &bytes[12..76],
        Err(_) => &bytes[..0],
    }
}
