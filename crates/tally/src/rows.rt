// The words of a table, lent as its own part of the memory; the next that is not 0 among such words, and blocks of eight of them.
ghost use Rattle.std.specs.Prelude.{◌≡◌, true, ◌+◌, ◌-◌, ◌≤◌, ◌<◌, length};
ghost use Rattle.std.specs.Iterator.{at_most};
ghost use Rattle.tally.specs.Search.{seek};
ghost use Rattle.tally.specs.Rows.{table, used, Gives};
ghost use Rattle.tally.specs.Blocks.{block_at, block_of};

use pages::{IndexWidth, count_of, page_of, words_of};

// The table that the word w of a directory or a shadow names; an absent one has no words.
pub fn table_of(b: IndexWidth, m: &[u32], w: u32) -> &[u32]
    ensures { result.now ≡ table b.bits m.now w }
{
    if w == 0 {
        return &m[0..0];
    }
    words_of(b, m, page_of(b, w))
}

// The first word from i on that is not 0, or the end: one by one up to the next block, past the blocks without a word, and one by one in the block that has
// one or in what is left.
pub fn next_word(s: &[u32], i: usize) -> usize
    requires { i ≤ length s.now }
    ensures { result ≡ seek (used s.now) (length s.now - i) i }
{
    // Each loop begins where the one before it ends, so that none is a range of its own.
    let n = s.len();
    let mut j = i;
    while j % 8 != 0 {
        if j == n {
            return j;
        }
        if s[j] != 0 {
            return j;
        }
        j += 1;
    }
    while block_of(s, n, j, 0, 8) {
        j += 8;
    }
    for k in j..n {
        if s[k] != 0 {
            return k;
        }
    }
    n
}

// The places of the words that are not 0, in rising order: `at` is the next one, or the end.
#[derive(Drop)]
pub struct Used<'a> {
    pub words: &'a [u32],
    pub at: usize,
    pub ghost inside: { at ≤ length words.now },
    pub ghost here: { at < length words.now → used words.now at ≡ true },
}

pub fn used_places(words: &[u32]) -> Used<'_>
    ensures { (result.words.now ≡ words.now) × (result.at ≡ seek (used words.now) (length words.now - 0) 0) }
{
    Used {
        words,
        at: next_word(words, 0),
    }
}

impl Iterator for Used<'_> {
    type Item = usize;

    ghost next_gives = { λ s r t. (t.words.now ≡ s.words.now) × Gives s.words.now s.at r t.at };

    ghost remaining = { λ s. at_most (length s.words.now - s.at) };

    fn next(&mut self) -> Option<usize> {
        let i = self.at;
        if i == self.words.len() {
            return None;
        }
        self.at = next_word(self.words, i + 1);
        Some(i)
    }
}

// Eight places from i on, all below n, at every eighth place.
pub fn block_at(n: usize, i: usize) -> bool
    requires { i + 8 < 18446744073709551616 }
    ensures { result ≡ block_at n i }
{
    if i % 8 != 0 {
        return false;
    }
    i + 8 <= n
}

// A block in which x stands k times.
pub fn block_of(s: &[u32], n: usize, i: usize, x: u32, k: u32) -> bool
    requires { (n ≤ length s.now) × (i + 8 < 18446744073709551616) }
    ensures { result ≡ block_of s.now n i x k }
{
    if !block_at(n, i) {
        return false;
    }
    count_of(&s[i..i + 8], x) == k
}
