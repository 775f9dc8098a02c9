// The children of a partition.
ghost use Rattle.std.specs.Prelude.{◌≡◌, ◌-◌, ◌≤◌, length, get_or};
ghost use Rattle.memory.specs.Counts.{child_at, child_of};
ghost use Rattle.tally.specs.Search.{seek};
ghost use Rattle.tally.specs.Rows.{child_words};

use pages::{IndexWidth, PhysicalPage, lent, mapping, page_of};
use tally::block_of;

// A child of d stands at v: a mapping with shadow 1 word 1.
pub fn child_at(b: IndexWidth, m: &[u32], d: PhysicalPage, v: u32) -> bool
    ensures { result ≡ child_at b.bits m.now d.0 v }
{
    if mapping(b, m, d, v) == 0 {
        return false;
    }
    lent(b, m, d, v) == 1
}

// The page that is mapped there: the child's descriptor.
pub fn child_of(b: IndexWidth, m: &[u32], d: PhysicalPage, v: u32) -> PhysicalPage
    ensures { result.0 ≡ child_of b.bits m.now d.0 v }
{
    page_of(b, mapping(b, m, d, v))
}

// The same of its two words.
fn is_child(w: u32, x: u32) -> bool
    ensures { result ≡ child_words w x }
{
    if x != 1 {
        return false;
    }
    w != 0
}

// The next child of a row from place i on, below n, where pt is its page table and s1 its shadow 1 table. Blocks of s1 without a 1 are passed over.
pub fn next_child(pt: &[u32], s1: &[u32], n: usize, i: usize) -> usize
    requires { (n ≤ length pt.now) × (n ≤ length s1.now) }
    ensures { result ≡ seek (λ j. child_words (get_or pt.now j 0) (get_or s1.now j 0)) (n - i) i }
{
    // The step is eight places or one, by what stands there: no range has it.
    let mut j = i;
    while j < n {
        if block_of(s1, n, j, 1, 0) {
            j += 8;
        } else {
            if is_child(pt[j], s1[j]) {
                return j;
            }
            j += 1;
        }
    }
    j
}
