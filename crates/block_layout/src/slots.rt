// The words of a slot, one by one, and what they name. "Block n of a partition is slot n mod 8 of structure n div 8."
ghost use Rattle.std.specs.Prelude.{◌≡◌, cond, ◌+◌, ◌*◌, ◌%◌, ◌<◌, eqb};
ghost use Rattle.block_memory.specs.Partition;
ghost use Rattle.block_memory.specs.Geometry.{slot_words, word_from};

use crate::partitions::{parent, structure};
use crate::sizes::SLOT_WORDS;
use common::read;

// "slot i from word 2+9i on": where the slot of block n stands, in the structure at s.
pub fn slot_in(s: u32, n: u32) -> usize
    ensures { (result ≡ s + 2 + slot_words * (n % 8)) × (result < 4294967361) }
{
    (s as usize) + 2 + SLOT_WORDS * ((n % 8) as usize)
}

// Word f of the slot of block n.
#[tactic(auto, unfolding(block_memory::specs::Partition::field))]
pub fn field(m: &[u32], d: u32, n: u32, f: u32) -> u32
    ensures { result ≡ Partition.field m.now d n f }
{
    let s = structure(m, d, n / 8);
    if s == 0 {
        return 0;
    }
    read(m, slot_in(s, n) + (f as usize))
}

// The nine words by their names, as the rules have them, each a call of field: a constant in place of the name is no plainer.

// 0 start: "its first byte"
pub fn start(m: &[u32], d: u32, n: u32) -> u32
    ensures { result ≡ Partition.start m.now d n }
{
    field(m, d, n, 0)
}

// 1 end: "the byte after its last"
pub fn end(m: &[u32], d: u32, n: u32) -> u32
    ensures { result ≡ Partition.end m.now d n }
{
    field(m, d, n, 1)
}

// 2 rights: "read 1, write 2, execute 4"
pub fn rights(m: &[u32], d: u32, n: u32) -> u32
    ensures { result ≡ Partition.rights m.now d n }
{
    field(m, d, n, 2)
}

// 3 use: "1 in hand, 2 lent, 3 a child's descriptor stands in it, 4 a structure stands in it"; 0 is a free slot
pub fn used(m: &[u32], d: u32, n: u32) -> u32
    ensures { result ≡ Partition.used m.now d n }
{
    field(m, d, n, 3)
}

// 4 child: "lent: the child that has it; use 4: the child whose structure it is, 0 if this partition's own; else 0"
pub fn child(m: &[u32], d: u32, n: u32) -> u32
    ensures { result ≡ Partition.child m.now d n }
{
    field(m, d, n, 4)
}

// 5 link: "lent: the number, in the child, of its first piece; use 4: the structure's k; else 0"
pub fn link(m: &[u32], d: u32, n: u32) -> u32
    ensures { result ≡ Partition.link m.now d n }
{
    field(m, d, n, 5)
}

// 6 source: "the number, in the parent's pool, of the block that it was added from; in the root 0"
pub fn source(m: &[u32], d: u32, n: u32) -> u32
    ensures { result ≡ Partition.source m.now d n }
{
    field(m, d, n, 6)
}

// 7 previous: "the piece before it, 0 in the first"
pub fn previous(m: &[u32], d: u32, n: u32) -> u32
    ensures { result ≡ Partition.previous m.now d n }
{
    field(m, d, n, 7)
}

// 8 next: "the piece after it, 0 in the last"
pub fn next(m: &[u32], d: u32, n: u32) -> u32
    ensures { result ≡ Partition.next m.now d n }
{
    field(m, d, n, 8)
}

// Where what stands in a block that starts at byte x begins: "from the block's first whole word on, index (start + 3) div 4".
pub fn word_from(x: u32) -> u32
    ensures { result ≡ word_from x }
{
    x.div_ceil(4)
}

// The same of block n.
pub fn place(m: &[u32], d: u32, n: u32) -> u32
    ensures { result ≡ Partition.place m.now d n }
{
    word_from(start(m, d, n))
}

// Word 1 of a structure whose block has c in word 4: "1 if child is 0, else 0".
pub fn own(c: u32) -> u32
    ensures { result ≡ cond (eqb c 0) 1 0 }
{
    u32::from(c == 0)
}

// "an argument partition is 0 for the caller or a child's number"
pub fn named(m: &[u32], d: u32, c: u32) -> u32
    ensures { result ≡ Partition.named m.now d c }
{
    if c == 0 {
        return d;
    }
    place(m, d, c)
}

// The partition whose pool has the block that the structure at s, of d, stands in.
pub fn holder(m: &[u32], d: u32, s: u32) -> u32
    ensures { result ≡ Partition.holder m.now d s }
{
    if read(m, (s as usize) + 1) == 1 {
        return d;
    }
    parent(m, d)
}
