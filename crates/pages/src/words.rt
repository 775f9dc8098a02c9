// The words of the memory. Reading past the end gives 0 and writing there does nothing, so no page number needs a bound.
ghost use Rattle.std.specs.Prelude.{◌≡◌, ◌<◌};
ghost use Rattle.memory.specs.Words;
ghost use Rattle.memory.specs.Words.{word, put};

use crate::addresses::PhysicalPage;
use crate::widths::IndexWidth;
use common::{read, write};

// "page k is words 64k to 64k+63": where word i of page p stands. Up to 43 bits hold it, so it is worked out in 64.
pub fn index(b: IndexWidth, p: PhysicalPage, i: u32) -> usize
    ensures { (result ≡ Words.index b.bits p.0 i) × (result < 8796093022208) }
{
    ((p.0 as usize) << b.bits) + (i as usize)
}

// Word i of page p.
pub fn read_word(b: IndexWidth, m: &[u32], p: PhysicalPage, i: u32) -> u32
    ensures { result ≡ word b.bits m.now p.0 i }
{
    read(m, index(b, p, i))
}

// Stores x as word i of page p.
pub fn write_word(b: IndexWidth, m: &mut [u32], p: PhysicalPage, i: u32, x: u32)
    ensures { m.new ≡ put b.bits m.old p.0 i x }
{
    write(m, index(b, p, i), x);
}
