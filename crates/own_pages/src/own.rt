// The pages of a partition, looked up once, and their words.
ghost use Rattle.std.specs.Prelude.{◌≡◌, true, ◌<◌};
ghost use Rattle.memory.specs.Geometry.{page_words};
ghost use Rattle.memory.specs.Words.{word};
ghost use Rattle.memory.specs.Partition;
ghost use Rattle.own_pages.specs.Named.{Whole, WordsAt};

use crate::roots::far_word;
use pages::{
    IndexWidth, PhysicalPage, directory, index, list, page_words, read, shadow1, shadow2, threes,
};

// The pages that a descriptor names, with the memory in which they were looked up and its width.
#[derive(Clone, Copy)]
pub struct Own<'m> {
    pub width: IndexWidth,
    pub words: &'m [u32],
    pub descriptor: PhysicalPage,
    pub directory: PhysicalPage,
    pub shadow1: PhysicalPage,
    pub shadow2: PhysicalPage,
    pub list: PhysicalPage,
    // How many threes the list has.
    pub threes: u32,
    // The directory and the shadows lie in the memory.
    pub whole: bool,
    pub ghost at_directory: { directory.0 ≡ Partition.directory width.bits words.now descriptor.0 },
    pub ghost at_shadow1: { shadow1.0 ≡ Partition.shadow1 width.bits words.now descriptor.0 },
    pub ghost at_shadow2: { shadow2.0 ≡ Partition.shadow2 width.bits words.now descriptor.0 },
    pub ghost at_list: { list.0 ≡ Partition.list width.bits words.now descriptor.0 },
    pub ghost counted: { threes ≡ Partition.threes width.bits words.now descriptor.0 },
    pub ghost lie: { whole ≡ true
        → Whole width.bits words.now directory.0 × Whole width.bits words.now shadow1.0 × Whole width.bits words.now shadow2.0 },
}

// The words of the directory and the shadows at one index.
#[derive(Clone, Copy, PartialEq, Eq)]
pub struct Three(pub u32, pub u32, pub u32);

// Page p lies in the memory.
fn is_whole(b: IndexWidth, m: &[u32], p: PhysicalPage) -> bool
    ensures { result ≡ true → Whole b.bits m.now p.0 }
{
    index(b, p, page_words(b)) <= m.len()
}

impl<'m> Own<'m> {
    // The pages that the descriptor d names.
    pub fn look_up(b: IndexWidth, m: &'m [u32], d: PhysicalPage) -> Own<'m>
        ensures { (result.width.bits ≡ b.bits) × (result.words.now ≡ m.now) × (result.descriptor.0 ≡ d.0) }
    {
        let p = directory(b, m, d);
        let q = shadow1(b, m, d);
        let s = shadow2(b, m, d);
        let whole = is_whole(b, m, p) && is_whole(b, m, q) && is_whole(b, m, s);
        Own {
            width: b,
            words: m,
            descriptor: d,
            directory: p,
            shadow1: q,
            shadow2: s,
            list: list(b, m, d),
            threes: threes(b, m, d),
            whole,
        }
    }

    // Word i of page p. A page that is known to lie in the memory is read without a look at its end.
    fn word_of(&self, p: PhysicalPage, i: u32) -> u32
        requires place { i < page_words self.now.width.bits }
        requires whole { self.now.whole ≡ true → Whole self.now.width.bits self.now.words.now p.0 }
        ensures { result ≡ word self.now.width.bits self.now.words.now p.0 i }
    {
        let k = index(self.width, p, i);
        if self.whole {
            return self.words[k];
        }
        read(self.words, k)
    }

    pub fn words_at(&self, i: u32) -> Three
        requires place { i < page_words self.now.width.bits }
        ensures { WordsAt self.now.width.bits self.now.words.now self.now.descriptor.0 i result.0 result.1 result.2 }
    {
        Three(
            self.word_of(self.directory, i),
            self.word_of(self.shadow1, i),
            self.word_of(self.shadow2, i),
        )
    }

    pub fn list_at(&self, i: usize) -> u32
        requires small { i < 34359738368 }
        ensures { result ≡ word self.now.width.bits self.now.words.now (Partition.list self.now.width.bits self.now.words.now self.now.descriptor.0) i }
    {
        far_word(self.width, self.words, self.list, i)
    }
}
