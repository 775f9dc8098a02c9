// "The tree is at most 8 below the root; current is in it." and "Pages 1 to N−1 are each in exactly one hand or one kernel use."
ghost use Rattle.std.specs.Prelude.{◌≡◌, ◌-◌, ◌*◌, eqb, length, get_or, take};
ghost use Rattle.walk.specs.Finite.{from, all};
ghost use Rattle.walk.specs.Marks.{answer};
ghost use Rattle.walk.specs.Walk as W;
ghost use Rattle.memory.specs.Geometry.{most_depth};
ghost use Rattle.memory.specs.Partition.{pages};
ghost use Rattle.memory.specs.Counts.{children};
ghost use Rattle.soundness.specs.Test;
ghost use Rattle.soundness.specs.Test.{own, judged};
ghost use Rattle.judging.specs.Quick.{partition_test};
ghost use Rattle.tally.specs.Bits.{marks_in, OutsideMarked};

use crate::cells::cells_test;
use crate::children::{child_at, child_of};
use crate::cycle::judge_children;
use crate::partitions::judge_alone;
use own_pages::virtual_address;
use pages::{IndexWidth, PhysicalPage, parent, read_word, table_for};

// Each page from 1 on has its mark. Page 0 has none, so that its bit is passed over.
pub fn all_marked(seen: &[u32]) -> bool
    ensures { result ≡ all (λ p. eqb (get_or (marks_in seen.now) p 0) 1) (from (32 * length seen.now - 1) 1) }
{
    if seen.len() == 0 {
        return true;
    }
    if seen[0] | 1 != u32::MAX {
        return false;
    }
    seen[1..].iter().all(|w| *w == u32::MAX)
}

// The root, with eight levels below it, as any partition is judged. judge_alone and cells_test have two callers so that each stays a function when it is
// compiled: its part of the stack is then taken once, and not at each level of the tree, and its loops have the registers to themselves.
pub fn judge_root(b: IndexWidth, m: &[u32], seen: &mut [u32]) -> bool
    ensures { W.judge (children b.bits m.now) (own b.bits m.now) (partition_test b.bits m.now) most_depth (marks_in seen.old) 1
        ≡ answer result (marks_in seen.new) }
{
    let Some(t) = judge_alone(b, m, seen, PhysicalPage(1)) else {
        return false;
    };
    if !cells_test(b, m, PhysicalPage(1), t.mapped) {
        return false;
    }
    if t.due == 0 {
        return true;
    }
    judge_children(b, m, seen, PhysicalPage(1), 8)
}

// The tree below the root, walked once: every partition passes its test, and every page is used once. No page has its mark at first.
pub fn tree_test(b: IndexWidth, m: &[u32], seen: &mut [u32]) -> bool
    requires outside { OutsideMarked (pages b.bits m.now) seen.old }
    ensures { result
        ≡ judged b.bits m.now
        (W.judge (children b.bits m.now) (own b.bits m.now) (partition_test b.bits m.now) most_depth
        (take (pages b.bits m.now) (marks_in seen.old)) 1) }
{
    if !judge_root(b, m, seen) {
        return false;
    }
    all_marked(seen)
}

// c is the child that stands where its first word says, in the partition that it says is its parent.
pub fn placed(b: IndexWidth, m: &[u32], c: PhysicalPage) -> bool
    ensures { result ≡ Test.placed b.bits m.now c.0 }
{
    let p = parent(b, m, c);
    let v = read_word(b, m, c, 0);
    if !virtual_address(b, v) {
        return false;
    }
    if table_for(b, m, p, v) == 0 {
        return false;
    }
    if !child_at(b, m, p, v) {
        return false;
    }
    child_of(b, m, p, v).0 == c.0
}

// "current is in it": up by the parents' words as far as the root, with a look back down at each step.
pub fn under(b: IndexWidth, m: &[u32], c: PhysicalPage) -> bool
    ensures { result ≡ Test.under b.bits m.now most_depth c.0 }
{
    let mut p = c;
    for _k in 0u32..8 {
        if p.0 == 1 {
            return true;
        }
        if !placed(b, m, p) {
            return false;
        }
        p = parent(b, m, p);
    }
    p.0 == 1
}
