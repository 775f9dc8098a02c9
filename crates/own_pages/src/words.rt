// Runs of words that are 0.
ghost use Rattle.std.specs.Prelude.{◌≡◌, not, ◌||◌, ◌-◌, leb, eqb, get_or};
ghost use Rattle.walk.specs.Finite.{from, all};
ghost use Rattle.memory.specs.Geometry.{page_words};
ghost use Rattle.memory.specs.Words.{word};

use pages::{IndexWidth, PhysicalPage, index, page_words};

// The words from index a up to e are 0. They are joined and tested once; past the end of the memory there is nothing to join.
pub fn zeros(m: &[u32], a: usize, e: usize) -> bool
    ensures { result ≡ all (λ i. eqb (get_or m.now i 0) 0) (from (e - a) a) }
{
    let end = e.min(m.len());
    let mut joined: u32 = 0;
    for i in a..end {
        joined |= m[i];
    }
    joined == 0
}

// The words of page p from k on are 0.
pub fn zero_from(b: IndexWidth, m: &[u32], p: PhysicalPage, k: u32) -> bool
    ensures { result ≡ all (λ i. not (leb k i) || eqb (word b.bits m.now p.0 i) 0) (from (page_words b.bits) 0) }
{
    zeros(m, index(b, p, k), index(b, p, page_words(b)))
}
