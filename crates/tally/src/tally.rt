// One sweep over the rows of a partition's tables, in which the pages in its hand are marked and all that is counted there is counted; and what its parent
// lends to it.
ghost use Rattle.std.specs.Prelude.{◌≡◌, not, ◌||◌, ◌*◌, ◌≤◌, eqb, length, get_or, is_some, IfSome};
ghost use Rattle.std.proofs.Math.Option.{some};
ghost use Rattle.walk.specs.Finite.{from};
ghost use Rattle.walk.specs.Marks.{answer, mark, marks};
ghost use Rattle.memory.specs.Geometry.{page_words, page_of};
ghost use Rattle.memory.specs.Words.{word};
ghost use Rattle.memory.specs.Partition;
ghost use Rattle.soundness.specs.Test.{hand_pages};
ghost use Rattle.judging.specs.Quick.{shut_count, due_count, lent_count, mapped_count};
ghost use Rattle.tally.specs.Run.{run, adding, marking, bit};
ghost use Rattle.tally.specs.Rows.{shut_words, hand_words, due_words};
ghost use Rattle.tally.specs.Bits.{marks_in};

use crate::marks::mark_hand;
use crate::rows::{block_of, table_of, used_places};
use pages::{
    IndexWidth, PhysicalPage, accessible, count_of, directory, page_of, page_words, parent, read,
    read_word, shadow1, threes, words_of,
};

// Where each page in hand could be marked: the pages mapped, those neither lent nor accessible, and the kernel pages of the children. The last is a sum in
// 64 bits, since a child's list may have any number of threes.
#[derive(Clone, Copy)]
pub struct Swept {
    pub mapped: u32,
    pub shut: u32,
    pub due: u64,
}

// A page is there that is neither lent nor accessible.
fn is_shut(w: u32, x: u32) -> bool
    ensures { result ≡ shut_words w x }
{
    if w == 0 {
        return false;
    }
    if 1 < x {
        return false;
    }
    accessible(w) == 0
}

// The kernel pages of the child that stands there, if one does: its five, and those of its list.
fn due_pages(b: IndexWidth, m: &[u32], w: u32, x: u32) -> u64
    ensures { (result ≡ due_words b.bits m.now w x) × (result ≤ 12884901893) }
{
    if w == 0 {
        return 0;
    }
    if x != 1 {
        return 0;
    }
    5 + 3 * u64::from(threes(b, m, page_of(b, w)))
}

// A row, whose page table is pt and whose shadow 1 table is s1. A page that is lent is only counted as mapped.
pub fn tally_row(
    b: IndexWidth,
    m: &[u32],
    seen: &mut [u32],
    pt: &[u32],
    s1: &[u32],
) -> Option<Swept>
    requires short { length pt.now ≤ page_words b.bits }
    ensures { (run (marking (λ j. hand_words (get_or pt.now j 0) (get_or s1.now j 0)) (λ s j. mark s (page_of b.bits (get_or pt.now j 0))))
        (some (marks_in seen.old)) (from (page_words b.bits) 0)
        ≡ answer (is_some result) (marks_in seen.new))
        × IfSome result (λ t. (t.mapped ≡ run (adding (λ j. bit (not (eqb (get_or pt.now j 0) 0)))) 0 (from (page_words b.bits) 0))
        × (t.shut ≡ run (adding (λ j. bit (shut_words (get_or pt.now j 0) (get_or s1.now j 0)))) 0 (from (page_words b.bits) 0))
        × (t.due ≡ run (adding (λ j. due_words b.bits m.now (get_or pt.now j 0) (get_or s1.now j 0))) 0 (from (page_words b.bits) 0))
        × (t.mapped ≤ 1024)
        × (t.shut ≤ 1024)
        × (t.due ≤ 13194139538432)) }
{
    let mut mapped: u32 = 0;
    let mut shut: u32 = 0;
    let mut due: u64 = 0;
    // The step is eight places or one, by what stands there: no range has it.
    let mut j = 0;
    while j < pt.len() {
        let w = pt[j];
        if block_of(pt, pt.len(), j, 0, 8) {
            j += 8;
        } else if w == 0 {
            j += 1;
        } else {
            let x = read(s1, j);
            if x <= 1 {
                if !mark_hand(b, seen, w, x) {
                    return None;
                }
                shut += u32::from(is_shut(w, x));
                due += due_pages(b, m, w, x);
            }
            mapped += 1;
            j += 1;
        }
    }
    Some(Swept { mapped, shut, due })
}

// All rows of d.
pub fn tally(b: IndexWidth, m: &[u32], seen: &mut [u32], d: PhysicalPage) -> Option<Swept>
    ensures { (marks (marks_in seen.old) (hand_pages b.bits m.now d.0) ≡ answer (is_some result) (marks_in seen.new))
        × IfSome result (λ t. (t.mapped ≡ mapped_count b.bits m.now d.0)
        × (t.shut ≡ shut_count b.bits m.now d.0)
        × (t.due ≡ due_count b.bits m.now d.0)) }
{
    let dir = words_of(b, m, directory(b, m, d));
    let sh1 = words_of(b, m, shadow1(b, m, d));
    let mut mapped: u32 = 0;
    let mut shut: u32 = 0;
    let mut due: u64 = 0;
    for i in used_places(dir) {
        let pt = table_of(b, m, dir[i]);
        let s1 = table_of(b, m, read(sh1, i));
        let t = tally_row(b, m, seen, pt, s1)?;
        mapped += t.mapped;
        shut += t.shut;
        due += t.due;
    }
    Some(Swept { mapped, shut, due })
}

// How many words of a row's shadow 1 table s1 are v; those past its end count as 0.
pub fn lent_row(b: IndexWidth, s1: &[u32], v: u32) -> u32
    requires short { length s1.now ≤ page_words b.bits }
    ensures { (result ≡ run (adding (λ j. bit (eqb (get_or s1.now j 0) v))) 0 (from (page_words b.bits) 0)) × (result ≤ 1024) }
{
    let k = count_of(s1, v);
    if v == 0 {
        return k + (page_words(b) - (s1.len() as u32));
    }
    k
}

// How many pages d lends to its child at v.
pub fn lent_count(b: IndexWidth, m: &[u32], d: PhysicalPage, v: u32) -> u32
    ensures { result ≡ lent_count b.bits m.now d.0 v }
{
    let dir = words_of(b, m, directory(b, m, d));
    let sh1 = words_of(b, m, shadow1(b, m, d));
    let mut k: u32 = 0;
    for i in used_places(dir) {
        k += lent_row(b, table_of(b, m, read(sh1, i)), v);
    }
    k
}

// "conversely each lent page is mapped in that child once": the parent of d lends it n pages.
pub fn lent_test(b: IndexWidth, m: &[u32], d: PhysicalPage, n: u32) -> bool
    ensures { result
        ≡ (eqb d.0 1
        || eqb (lent_count b.bits m.now (Partition.parent b.bits m.now d.0) (word b.bits m.now d.0 0)) n) }
{
    if d.0 == 1 {
        return true;
    }
    lent_count(b, m, parent(b, m, d), read_word(b, m, d, 0)) == n
}
