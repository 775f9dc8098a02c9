// The indices of a directory and its shadows: "All three have tables at the same i", "each listed three stands at one directory index, and each index
// that has tables is listed once".
ghost use Rattle.std.specs.Prelude.{◌≡◌, ◌&&◌, ◌+◌, ◌<◌, ◌≤◌, eqb, length, MatchOption};
ghost use Rattle.walk.specs.Finite.{from, all, once};
ghost use Rattle.memory.specs.Geometry.{page_words};
ghost use Rattle.memory.specs.Partition;
ghost use Rattle.soundness.specs.Test.{stands};
ghost use Rattle.own_pages.specs.Asked.{no_tables, index_test, indices_left, Skipped};

use crate::tables::three_links;
use crate::threes::{Listed, all_met};
use own_pages::Own;
use pages::page_words;

// The three words of an index, joined.
fn joined_at(o: &Own, i: u32) -> u32
    requires place { i < page_words o.now.width.bits }
    ensures { eqb result 0 ≡ no_tables o.now.width.bits o.now.words.now o.now.descriptor.0 i }
{
    let t = o.words_at(i);
    t.0 | t.1 | t.2
}

// Eight indices from i on have no tables.
fn row_empty(o: &Own, i: u32) -> bool
    requires room { i + 8 ≤ page_words o.now.width.bits }
    ensures { result ≡ all (no_tables o.now.width.bits o.now.words.now o.now.descriptor.0) (from 8 i) }
{
    let mut joined = 0;
    for k in i..i + 8 {
        joined |= joined_at(o, k);
    }
    joined == 0
}

// From i on, eight indices at a time, past those that have no tables.
fn next_row(o: &Own, i: u32) -> u32
    requires start { i ≤ page_words o.now.width.bits }
    ensures { Skipped o.now.width.bits o.now.words.now o.now.descriptor.0 i result }
{
    let rows = (page_words(o.width) - i) / 8;
    for row in 0..rows {
        let k = i + 8 * row;
        if !row_empty(o, k) {
            return k;
        }
    }
    i + 8 * rows
}

// The first index from i on that has tables: most have none.
fn next_used(o: &Own, i: u32) -> Option<u32>
    requires start { i ≤ page_words o.now.width.bits }
    ensures { let skipped = Skipped o.now.width.bits o.now.words.now o.now.descriptor.0 i in
        let n = page_words o.now.width.bits in
        MatchOption result (skipped n) (λ r. (r < n) × skipped r) }
{
    (next_row(o, i)..page_words(o.width)).find(|k| joined_at(o, *k) != 0)
}

impl Listed<'_> {
    // An index has the forms, and has no tables or is listed once, at a three that stands at no index before it. met has a 1 for each three that was met,
    // and an index that passes adds its own.
    fn index_test(&self, met: &mut [u8], i: u32) -> bool
        requires index { i < page_words self.now.own.width.bits }
        requires room { self.now.own.threes ≤ length met.old }
        ensures { let o = self.now.own in
            indices_left o.width.bits o.words.now o.descriptor.0 met.old i
            ≡ result && indices_left o.width.bits o.words.now o.descriptor.0 met.new (i + 1) }
    {
        let t = self.own.words_at(i);
        if !three_links(self.own.width, self.own.words, t) {
            return false;
        }
        if t.0 == 0 {
            return true;
        }
        let Some(j) = self.place(t) else {
            return false;
        };
        let k = j as usize;
        if met[k] != 0 {
            return false;
        }
        met[k] = 1;
        true
    }

    // All indices of a partition, and each three of its list at one of them.
    pub fn indices_test(&self) -> bool
        ensures { let o = self.now.own in
            result
            ≡ all (index_test o.width.bits o.words.now o.descriptor.0) (from (page_words o.width.bits) 0)
            && all (λ j. once (stands o.width.bits o.words.now o.descriptor.0 j) (from (page_words o.width.bits) 0))
            (from (Partition.threes o.width.bits o.words.now o.descriptor.0) 0) }
    {
        // Numbers and not flags, in an array: `indices_left` adds them to what is still to be met, and fixed memory cannot fail.
        let mut met = [0u8; 10];
        let mut next = next_used(&self.own, 0);
        while let Some(i) = next {
            if !self.index_test(&mut met, i) {
                return false;
            }
            next = next_used(&self.own, i + 1);
        }
        all_met(&met, self.own.threes)
    }
}
