// The judgement of a memory, whole.
ghost use Rattle.std.specs.Prelude.{◌≡◌, true, replicate};
ghost use Rattle.memory.specs.Edition;
ghost use Rattle.memory.specs.Partition;
ghost use Rattle.soundness.specs.Test.{header_test, sound_test};
ghost use Rattle.judging.specs.Quick.{quick_test};
ghost use Rattle.tally.specs.Bits.{words_for};

use crate::root::root_test;
use crate::tree::{tree_test, under};
use header::header_test;
use pages::{IndexWidth, current, pages, width};
use tally::mark_outside;

// The rest of the judgement, once the header has passed. seen has a bit for each page, all 0.
pub fn judged_with(b: IndexWidth, m: &[u32], seen: &mut [u32]) -> bool
    requires header { header_test b.bits m.now ≡ true }
    requires clear { seen.old ≡ replicate (words_for (Partition.pages b.bits m.now)) 0 }
    ensures { result ≡ quick_test b.bits m.now }
{
    if !root_test(b, m) {
        return false;
    }
    mark_outside(seen, pages(b, m));
    if !tree_test(b, m, seen) {
        return false;
    }
    under(b, m, current(b, m))
}

// Any lent memory, at the width of the edition that its header names. The marks are in a local array, so that no lent buffer changes: 128 words hold those of
// the 4,096 pages that a memory has at most.
pub fn is_sound(m: &[u32]) -> bool
    ensures { result ≡ sound_test (Edition.width m.now) m.now }
{
    let b = width(m);
    if !header_test(b, m) {
        return false;
    }
    let words = ((pages(b, m) + 31) / 32) as usize;
    let mut seen = [0u32; 128];
    judged_with(b, m, &mut seen[0..words])
}
