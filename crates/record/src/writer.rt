// The writer: "takes sound memory, 64 or more revision bytes (the first 64 count) and a buffer of 76 or more; bytes past 76 stay".
ghost use Rattle.std.specs.Prelude.{◌≡◌, true, ◌+◌, ◌≤◌, length};
ghost use Rattle.memory.specs.Geometry;
ghost use Rattle.memory.specs.Geometry.{flat_pages};
ghost use Rattle.memory.specs.Partition;
ghost use Rattle.memory.specs.Words.{overwrite};
ghost use Rattle.soundness.specs.Test.{sound_test};
ghost use Rattle.rules.specs.Record.{record_bytes, writer_answer, after_writer};
ghost use Rattle.answers.specs.Said.{said};

use crate::bytes::{MAGIC, little_endian, put_bytes};
use answers::{Answer, Refusal};
use pages::{IndexWidth, VirtualPage, address_of, flat_pages, page_bytes};

// "end 256(F+1)"
fn end_of(b: IndexWidth, m: &[u32]) -> u32
    requires sound { sound_test b.bits m.now ≡ true }
    ensures { result ≡ Geometry.address b.bits (flat_pages b.bits (Partition.pages b.bits m.now) + 1) }
{
    let f = flat_pages(b, pages::pages(b, m));
    address_of(b, VirtualPage(f + 1))
}

// The record's 76 bytes, from the first of `out` on.
fn fill(b: IndexWidth, m: &[u32], revision: &[u8], out: &mut [u8])
    requires sound { sound_test b.bits m.now ≡ true }
    requires room { (64 ≤ length revision.now) × (76 ≤ length out.old) }
    ensures { out.new ≡ overwrite out.old 0 (record_bytes b.bits m.now revision.now) }
{
    let begin = little_endian(page_bytes(b));
    let end = little_endian(end_of(b, m));
    put_bytes(out, 0, &MAGIC);
    put_bytes(out, 4, &begin);
    put_bytes(out, 8, &end);
    put_bytes(out, 12, &revision[0..64]);
}

// "Refusals 1, 17." `good` tells whether the memory is sound.
pub fn write(b: IndexWidth, m: &[u32], good: bool, revision: &[u8], out: &mut [u8]) -> Answer
    requires tested { good ≡ sound_test b.bits m.now }
    ensures { (said result ≡ writer_answer b.bits m.now revision.now out.old)
        × (out.new ≡ after_writer b.bits m.now revision.now out.old) }
{
    if !good {
        return Err(Refusal::Damaged);
    }
    if revision.len() < 64 {
        return Err(Refusal::Short);
    }
    if out.len() < 76 {
        return Err(Refusal::Short);
    }
    fill(b, m, revision, out);
    Ok(0)
}
