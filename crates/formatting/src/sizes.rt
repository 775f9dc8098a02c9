// The size of a memory, and what format counts from it.
ghost use Rattle.std.specs.Prelude.{◌≡◌, ◌≤◌};
ghost use Rattle.memory.specs.Geometry;
ghost use Rattle.rules.specs.Conditions.{pages_in, wrong_size};

use pages::{IndexWidth, PhysicalPage};

// How many whole pages the memory has.
pub fn pages_in(b: IndexWidth, m: &[u32]) -> usize
    ensures { result ≡ pages_in b.bits m.now }
{
    m.len() / (pages::page_words(b) as usize)
}

// "length isn't 64N with N 16 to 256"
pub fn wrong_size(b: IndexWidth, m: &[u32]) -> bool
    ensures { result ≡ wrong_size b.bits m.now }
{
    let w = pages::page_words(b) as usize;
    let n = pages_in(b, m);
    m.len() % w != 0 || n < 16 || 4 * w < n
}

// The address of a page that is not far up.
pub fn page_address(b: IndexWidth, p: PhysicalPage) -> u32
    requires near { p.0 ≤ 65536 }
    ensures { (result ≡ Geometry.address b.bits p.0) × (result ≤ 268435456) }
{
    pages::address(b, p)
}
