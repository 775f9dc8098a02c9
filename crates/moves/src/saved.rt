// What a call has to remember is read before anything is changed.
ghost use Rattle.std.specs.Prelude.{◌≡◌, ◌+◌, ◌≤◌, length, take, drop};
ghost use Rattle.memory.specs.Geometry.{address, page_of};
ghost use Rattle.memory.specs.Words.{page, overwrite};
ghost use Rattle.memory.specs.Partition.{mapping};

use pages::{IndexWidth, PhysicalPage};

// Saves n words of page p, from word i on, at the start of a buffer. The answer is how many of them there are.
pub fn save(b: IndexWidth, m: &[u32], p: PhysicalPage, i: u32, n: u32, buffer: &mut [u32]) -> usize
    requires fits { n + i ≤ 64 }
    ensures { (buffer.new ≡ overwrite buffer.old 0 (take n (drop i (page b.bits m.now p.0))))
        × (result ≡ length (take n (drop i (page b.bits m.now p.0))))
        × (result ≤ n) }
{
    let a = pages::index(b, p, i).min(m.len());
    let e = pages::index(b, p, i + n).min(m.len());
    pages::copy(buffer, &m[a..e]);
    e - a
}

// The physical address of the page at address a of partition d.
pub fn frame_at(b: IndexWidth, m: &[u32], d: PhysicalPage, a: u32) -> u32
    ensures { (result ≡ address b.bits (page_of b.bits (mapping b.bits m.now d.0 a))) × (result + 256 ≤ 4294967296) }
{
    pages::frame(b, pages::mapping(b, m, d, a))
}
