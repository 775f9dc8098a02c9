// 6 to 9: a slot of a partition d, which is block n; b is its nine words.
ghost use Rattle.std.specs.Prelude.{◌≡◌, cond, ◌&&◌, ◌||◌, ◌+◌, ◌*◌, ◌/◌, ◌≤◌, ◌<◌, MatchOption, true, false, leb, eqb, length};
ghost use Rattle.walk.specs.Finite.{from, all};
ghost use Rattle.block_memory.specs.Geometry.{slot_words};
ghost use Rattle.block_memory.specs.Partition;
ghost use Rattle.block_memory.specs.Partition.{numbers};
ghost use Rattle.block_memory.specs.Sound.{source_start, source_end, source_link};
ghost use Rattle.block_soundness.specs.Test;
ghost use Rattle.block_soundness.specs.Test.{form_test, lent_test, holds_descriptor, holds_structure, use_test, source_test, pieces_test};
ghost use Rattle.block_layout.specs.Blocks.{ReadAs};

use block_layout::{
    Block, DESCRIPTOR_WORDS, FIRST_NUMBER, MOST_STRUCTURES, STRUCTURE_WORDS, block_in, block_of,
    first_byte, is_partition, is_root, named, next, number, own, parent, place, previous, rights,
    source, start, structure, used, word_from,
};
use common::read;

// Block n of d in the memory m, and its nine words, read once.
#[derive(Clone, Copy)]
struct Slot<'m> {
    m: &'m [u32],
    d: u32,
    n: u32,
    b: Block,
    ghost words: { ReadAs m.now d n b },
}

// What a block comes from, read once: where its source starts and ends, and the number of its first piece.
#[derive(Clone, Copy)]
struct Source {
    start: usize,
    end: usize,
    link: u32,
}

// "there is room for n words where 4(index + n) is at most the block's end", in 64 bits
fn has_room(s: u32, words: usize, end: u32) -> bool
    requires { words < 1024 }
    ensures { result ≡ leb (4 * (s + words)) end }
{
    4 * ((s as usize) + words) <= (end as usize)
}

impl Slot<'_> {
    // 6: "A free slot is all 0."
    fn is_clear(&self) -> bool
        ensures { result ≡ all (λ f. eqb (Partition.field self.now.m.now self.now.d self.now.n f) 0) (from slot_words 0) }
    {
        // One test of the words joined as bits: most slots are free, and nine tests are no plainer.
        let b = &self.b;
        (b.start | b.end | b.rights | b.used | b.child | b.link | b.source | b.previous | b.next)
            == 0
    }

    // 6: "A block has 32 bytes at least and ends in memory; its rights are at most 7 and its use at most 4."
    #[tactic(auto, unfolding(block_soundness::specs::Test::form_test))]
    fn form_test(&self) -> bool
        ensures { result ≡ form_test self.now.m.now self.now.d self.now.n }
    {
        let b = &self.b;
        u64::from(b.start) + 32 <= u64::from(b.end)
            && (b.end as usize) <= 4 * self.m.len()
            && b.rights <= 7
            && b.used <= 4
    }

    // 7: "Lent: child is a child, and the child's block of the number in link has this one as source and no previous."
    #[tactic(auto, unfolding(block_soundness::specs::Test::lent_test))]
    fn lent_test(&self) -> bool
        ensures { result ≡ lent_test self.now.m.now self.now.d self.now.n }
    {
        let b = &self.b;
        let t = place(self.m, self.d, b.child);
        used(self.m, self.d, b.child) == 3
            && source(self.m, t, b.link) == self.n
            && previous(self.m, t, b.link) == 0
    }

    // 7: "Use 3: child and link are 0; there is room for 32 words, and what stands there is a partition whose words 0 and 1 are d and this number."
    #[tactic(auto, unfolding(block_soundness::specs::Test::holds_descriptor))]
    fn holds_descriptor(&self) -> bool
        ensures { result ≡ holds_descriptor self.now.m.now self.now.d self.now.n }
    {
        let b = &self.b;
        let t = word_from(b.start);
        b.child == 0
            && b.link == 0
            && has_room(t, DESCRIPTOR_WORDS, b.end)
            && is_partition(self.m, t)
            && parent(self.m, t) == self.d
            && number(self.m, t) == self.n
    }

    // 7: "Use 4: child is 0 or a child; there is room for 74 words, and what stands there is structure link of the partition that child names, with this number
    // in word 0, and in word 1 1 if child is 0, else 0."
    #[tactic(auto, unfolding(block_soundness::specs::Test::holds_structure))]
    fn holds_structure(&self) -> bool
        ensures { result ≡ holds_structure self.now.m.now self.now.d self.now.n }
    {
        let b = &self.b;
        let s = word_from(b.start);
        (b.child == 0 || used(self.m, self.d, b.child) == 3)
            && has_room(s, STRUCTURE_WORDS, b.end)
            && structure(self.m, named(self.m, self.d, b.child), b.link) == s
            && read(self.m, s as usize) == self.n
            && read(self.m, (s as usize) + 1) == own(b.child)
    }

    // 7, by the block's use: "In hand: child and link are 0." The use is matched as the number that the memory holds: each slot is tested once, and an enum
    // would be matched twice.
    #[tactic(auto, unfolding(block_soundness::specs::Test::use_test))]
    fn use_test(&self) -> bool
        ensures { result ≡ use_test self.now.m.now self.now.d self.now.n }
    {
        match self.b.used {
            1 => self.b.child == 0 && self.b.link == 0,
            2 => self.lent_test(),
            3 => self.holds_descriptor(),
            4 => self.holds_structure(),
            _ => true,
        }
    }

    // 8: "In the root source is 0 and rights are 7. Elsewhere the parent's block of the number in source is lent to d and has all rights that this one has." In
    // the root what a block comes from is the starting block.
    #[tactic(auto, unfolding(block_soundness::specs::Test::source_test))]
    fn source(&self) -> Option<Source>
        ensures { MatchOption result (source_test self.now.m.now self.now.d self.now.n ≡ false)
            (λ s. (source_test self.now.m.now self.now.d self.now.n ≡ true)
            × (s.start ≡ source_start self.now.m.now self.now.d self.now.n)
            × (s.end ≡ source_end self.now.m.now self.now.d self.now.n)
            × (s.link ≡ source_link self.now.m.now self.now.d self.now.n)) }
    {
        let b = &self.b;
        if is_root(self.m, self.d) {
            if b.source != 0 || b.rights != 7 {
                return None;
            }
            return Some(Source {
                start: first_byte(self.m.len()),
                end: 4 * self.m.len(),
                link: FIRST_NUMBER,
            });
        }
        let s = block_of(self.m, parent(self.m, self.d), b.source);
        if s.used != 2 || s.child != number(self.m, self.d) || b.rights & s.rights != b.rights {
            return None;
        }
        Some(Source {
            start: s.start as usize,
            end: s.end as usize,
            link: s.link,
        })
    }

    // "If previous is 0, the block starts where its source starts, and the source's link is this number ..; Else the previous block's next is this."
    fn front_test(&self, s: &Source) -> bool
        ensures { result
            ≡ cond (eqb self.now.b.previous 0)
            (eqb self.now.b.start s.now.start && eqb s.now.link self.now.n)
            (eqb (Partition.next self.now.m.now self.now.d self.now.b.previous) self.now.n) }
    {
        let b = &self.b;
        if b.previous == 0 {
            (b.start as usize) == s.start && s.link == self.n
        } else {
            next(self.m, self.d, b.previous) == self.n
        }
    }

    // "Else the next block's previous is this, its start is this one's end, and its source and rights are the same."
    #[tactic(auto, unfolding(block_soundness::specs::Test::next_test))]
    fn next_test(&self) -> bool
        ensures { result ≡ Test.next_test self.now.m.now self.now.d self.now.n }
    {
        let b = &self.b;
        previous(self.m, self.d, b.next) == self.n
            && start(self.m, self.d, b.next) == b.end
            && source(self.m, self.d, b.next) == b.source
            && rights(self.m, self.d, b.next) == b.rights
    }

    // "If next is 0, the block ends where its source ends .."
    fn back_test(&self, s: &Source) -> bool
        ensures { result
            ≡ cond (eqb self.now.b.next 0) (eqb self.now.b.end s.now.end) (Test.next_test self.now.m.now self.now.d self.now.n) }
    {
        if self.b.next == 0 {
            (self.b.end as usize) == s.end
        } else {
            self.next_test()
        }
    }

    // 8 and 9.
    #[tactic(auto, unfolding(block_soundness::specs::Test::pieces_test))]
    fn pieces_test(&self) -> bool
        ensures { result
            ≡ (source_test self.now.m.now self.now.d self.now.n && pieces_test self.now.m.now self.now.d self.now.n) }
    {
        match self.source() {
            Some(s) => self.front_test(&s) && self.back_test(&s),
            None => false,
        }
    }

    // A free slot is clear; 6 to 9 hold of a block.
    #[tactic(auto, unfolding(block_soundness::specs::Test::slot_test))]
    fn passes(&self) -> bool
        ensures { result ≡ Test.slot_test self.now.m.now self.now.d self.now.n }
    {
        if self.b.used == 0 {
            self.is_clear()
        } else {
            self.form_test() && self.use_test() && self.pieces_test()
        }
    }
}

// The eight slots of structure k of d, if it is there.
fn structure_slots_test(m: &[u32], d: u32, k: u32) -> bool
    requires { k ≤ 16 }
    ensures { result ≡ all (λ n. eqb (Partition.structure m.now d (n / 8)) 0 || Test.slot_test m.now d n) (from 8 (8 * k)) }
{
    let s = structure(m, d, k);
    if s == 0 {
        return true;
    }
    for n in 8 * k..8 * k + 8 {
        let b = block_in(m, s, n);
        if !(Slot { m, d, n, b }).passes() {
            return false;
        }
    }
    true
}

// Each slot of d.
pub fn slots_test(m: &[u32], d: u32) -> bool
    ensures { result ≡ all (λ n. eqb (Partition.structure m.now d (n / 8)) 0 || Test.slot_test m.now d n) numbers }
{
    for k in 1..=MOST_STRUCTURES {
        if !structure_slots_test(m, d, k) {
            return false;
        }
    }
    true
}
