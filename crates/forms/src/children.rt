// "Every shadow 1 word 1 leads to a partition whose parent is this one and whose ten descriptor words agree with the parent's tables; so does each list
// pair." "A child's kernel pages are mapped inaccessible in its parent, not lent".
ghost use Rattle.std.specs.Prelude.{◌≡◌, ◌&&◌, leb, eqb};
ghost use Rattle.memory.specs.Geometry.{address, most_threes};
ghost use Rattle.memory.specs.Words.{word};
ghost use Rattle.memory.specs.Partition;
ghost use Rattle.soundness.specs.Test.{child_test, kernel_shut};

use own_pages::{Own, is_address};
use pages::{IndexWidth, PhysicalPage, list, read_word, threes};

// c names v, itself and d.
fn child_names(b: IndexWidth, m: &[u32], d: PhysicalPage, v: u32, c: PhysicalPage) -> bool
    ensures { result
        ≡ (eqb (word b.bits m.now c.0 0) v
        && eqb (word b.bits m.now c.0 1) (address b.bits c.0)
        && eqb (word b.bits m.now c.0 11) (address b.bits d.0)) }
{
    read_word(b, m, c, 0) == v
        && is_address(b, read_word(b, m, c, 1), c)
        && is_address(b, read_word(b, m, c, 11), d)
}

// c is the child of d that stands at v, and its kernel pages are shut. Its threes are counted first, so that no more than ten are looked at on any
// memory.
pub fn child_forms(b: IndexWidth, m: &[u32], d: PhysicalPage, v: u32, c: PhysicalPage) -> bool
    ensures { result
        ≡ (leb (Partition.threes b.bits m.now c.0) most_threes
        && child_test b.bits m.now d.0 v c.0
        && kernel_shut b.bits m.now d.0 c.0) }
{
    let n = threes(b, m, c);
    if 10 < n {
        return false;
    }
    if !child_names(b, m, d, v, c) {
        return false;
    }
    let o = Own::look_up(b, m, d);
    o.pairs_shut(c, 0, 5) && o.pairs_shut(list(b, m, c), 1, 3 * n)
}
