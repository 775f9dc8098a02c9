// "Pages 1 to N−1 are each in exactly one hand or one kernel use": one mark a page, set at each use. A mark is a bit, 32 in each word of seen.
ghost use Rattle.std.specs.Prelude.{◌≡◌, cond, ◌++◌, ◌+◌, ◌*◌, ◌≤◌, ◌<◌, get_or};
ghost use Rattle.std.proofs.Math.Option.{some};
ghost use Rattle.walk.specs.Marks.{answer, mark, marks};
ghost use Rattle.memory.specs.Geometry.{page_of, most_threes};
ghost use Rattle.memory.specs.Partition;
ghost use Rattle.memory.specs.Uses.{five_pages};
ghost use Rattle.soundness.specs.Test.{listed_pages};
ghost use Rattle.tally.specs.Rows.{hand_words};
ghost use Rattle.tally.specs.Bits.{marks_in, mark_outside};

use own_pages::list_pair;
use pages::{IndexWidth, PhysicalPage, accessible, named, page_of, threes};

// Marks what lies past n pages in the last word, which was 0: no page outside can then be marked.
pub fn mark_outside(seen: &mut [u32], n: u32)
    ensures { seen.new ≡ mark_outside n seen.old }
{
    let i = (n / 32) as usize;
    if i >= seen.len() {
        return;
    }
    seen[i] = u32::MAX - ((1 << (n % 32)) - 1);
}

// Marks page p, unless it is 0, outside or marked. Where it has its mark the word stays as it is.
pub fn mark_page(seen: &mut [u32], p: PhysicalPage) -> bool
    ensures { mark (marks_in seen.old) p.0 ≡ answer result (marks_in seen.new) }
{
    if p.0 == 0 {
        return false;
    }
    let i = (p.0 / 32) as usize;
    if i >= seen.len() {
        return false;
    }
    let w = seen[i];
    let x = w | (1 << (p.0 % 32));
    if x == w {
        return false;
    }
    seen[i] = x;
    true
}

// The kernel pages of d in order: descriptor, directory, shadow 1, shadow 2, list, and the tables that the list names.
pub fn kernel_page(b: IndexWidth, m: &[u32], d: PhysicalPage, j: u32) -> PhysicalPage
    requires one { j < 5 + 3 * Partition.threes b.bits m.now d.0 }
    ensures { result.0 ≡ get_or (five_pages b.bits m.now d.0 ++ listed_pages b.bits m.now d.0) j 0 }
{
    if j == 0 {
        return d;
    }
    if j < 5 {
        return named(b, m, d, 2 * j + 1);
    }
    page_of(b, list_pair(b, m, d, j - 5).1)
}

// Marks the kernel pages of d.
pub fn mark_kernel(b: IndexWidth, m: &[u32], seen: &mut [u32], d: PhysicalPage) -> bool
    requires few { Partition.threes b.bits m.now d.0 ≤ most_threes }
    ensures { marks (marks_in seen.old) (five_pages b.bits m.now d.0 ++ listed_pages b.bits m.now d.0)
        ≡ answer result (marks_in seen.new) }
{
    let n = 5 + 3 * threes(b, m, d);
    for j in 0..n {
        if !mark_page(seen, kernel_page(b, m, d, j)) {
            return false;
        }
    }
    true
}

// Marks the page of the word w, if it is in hand.
pub fn mark_hand(b: IndexWidth, seen: &mut [u32], w: u32, x: u32) -> bool
    ensures { cond (hand_words w x) (mark (marks_in seen.old) (page_of b.bits w)) (some (marks_in seen.old))
        ≡ answer result (marks_in seen.new) }
{
    if w == 0 {
        return true;
    }
    if accessible(w) != 1 {
        return true;
    }
    if x != 0 {
        return true;
    }
    mark_page(seen, page_of(b, w))
}
