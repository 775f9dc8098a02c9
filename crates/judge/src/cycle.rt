// "Judging a partition asks the same of its children, and judging its children asks it of each partition: the depth left falls."
ghost use Rattle.std.specs.Prelude.{◌≡◌};
ghost use Rattle.walk.specs.Marks.{answer};
ghost use Rattle.walk.specs.Walk as W;
ghost use Rattle.memory.specs.Counts.{children};
ghost use Rattle.soundness.specs.Test.{own};
ghost use Rattle.judging.specs.Quick.{partition_test};
ghost use Rattle.tally.specs.Bits.{marks_in};

use crate::cells::cells_test;
use crate::children::next_child;
use crate::partitions::judge_alone;
use pages::{IndexWidth, PhysicalPage, directory, page_of, read, shadow1, words_of};
use tally::{table_of, used_places};

// A partition with left levels below it. The counts come before the cells, so that a partition with more children than its tables have room for is not
// looked at further. Each child has kernel pages, so that where none are due there is no child to look for.
#[cycle(judge_children_judge_partition)]
pub fn judge_partition(
    b: IndexWidth,
    m: &[u32],
    seen: &mut [u32],
    d: PhysicalPage,
    left: u32,
) -> bool
    ensures { W.judge (children b.bits m.now) (own b.bits m.now) (partition_test b.bits m.now) left (marks_in seen.old) d.0
        ≡ answer result (marks_in seen.new) }
{
    let Some(t) = judge_alone(b, m, seen, d) else {
        return false;
    };
    if !cells_test(b, m, d, t.mapped) {
        return false;
    }
    if t.due == 0 {
        return true;
    }
    judge_children(b, m, seen, d, left)
}

// The children of d, where left levels may follow.
#[cycle(judge_children_judge_partition)]
pub fn judge_children(
    b: IndexWidth,
    m: &[u32],
    seen: &mut [u32],
    d: PhysicalPage,
    left: u32,
) -> bool
    ensures { W.judges (children b.bits m.now) (own b.bits m.now) (partition_test b.bits m.now) left (marks_in seen.old)
        (children b.bits m.now d.0)
        ≡ answer result (marks_in seen.new) }
{
    let dir = words_of(b, m, directory(b, m, d));
    let sh1 = words_of(b, m, shadow1(b, m, d));
    for i in used_places(dir) {
        let pt = table_of(b, m, dir[i]);
        let s1 = table_of(b, m, read(sh1, i));
        let n = pt.len().min(s1.len());
        // One loop goes over children: an iterator of its own would be longer.
        let mut j = next_child(pt, s1, n, 0);
        while j < n {
            if left == 0 {
                return false;
            }
            if !judge_partition(b, m, seen, page_of(b, pt[j]), left - 1) {
                return false;
            }
            j = next_child(pt, s1, n, j + 1);
        }
    }
    true
}
