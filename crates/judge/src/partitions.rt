// What a partition is asked by itself, but for its cells: of its own pages, and of the counts of its tables once they are swept.
ghost use Rattle.std.specs.Prelude.{◌≡◌, cond, ◌&&◌, eqb, is_some, IfSome};
ghost use Rattle.std.proofs.Math.Option.{none};
ghost use Rattle.walk.specs.Marks.{answer, marks};
ghost use Rattle.memory.specs.Partition;
ghost use Rattle.soundness.specs.Test.{own};
ghost use Rattle.judging.specs.Quick.{due_count, mapped_count};
ghost use Rattle.tally.specs.Bits.{marks_in};
ghost use Rattle.judge.specs.Alone.{alone_test};

use forms::forms_test;
use pages::{IndexWidth, PhysicalPage, mapping};
use tally::mark_kernel;
use tally::tally::tally;

// "Virtual page 0 is never mapped", and "no other page that isn't lent is inaccessible" than the children's kernel pages: shut pages of d are neither lent
// nor accessible, and its children have due kernel pages.
pub fn tables_test(b: IndexWidth, m: &[u32], d: PhysicalPage, shut: u32, due: u64) -> bool
    ensures { result ≡ (eqb (Partition.mapping b.bits m.now d.0 0) 0 && eqb shut due) }
{
    if mapping(b, m, d, 0) != 0 {
        return false;
    }
    u64::from(shut) == due
}

// Where a partition passed its test and each of its pages could be marked: the pages that it maps and the kernel pages of its children.
#[derive(Clone, Copy)]
pub struct Alone {
    pub mapped: u32,
    pub due: u64,
}

// A partition without its cells and its children. Its pages are marked before all is asked of it: where the answer is no, the marks are not looked at.
pub fn judge_alone(b: IndexWidth, m: &[u32], seen: &mut [u32], d: PhysicalPage) -> Option<Alone>
    ensures { (cond (alone_test b.bits m.now d.0) (marks (marks_in seen.old) (own b.bits m.now d.0)) none
        ≡ answer (is_some result) (marks_in seen.new))
        × IfSome result (λ t. (t.mapped ≡ mapped_count b.bits m.now d.0) × (t.due ≡ due_count b.bits m.now d.0)) }
{
    if !forms_test(b, m, d) {
        return None;
    }
    if !mark_kernel(b, m, seen, d) {
        return None;
    }
    let t = tally(b, m, seen, d)?;
    if !tables_test(b, m, d, t.shut, t.due) {
        return None;
    }
    Some(Alone {
        mapped: t.mapped,
        due: t.due,
    })
}
