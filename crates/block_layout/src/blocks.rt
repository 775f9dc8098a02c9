// A slot whole: its nine words, read once.
ghost use Rattle.block_layout.specs.Blocks.{ReadAs, ReadIn};

use crate::partitions::structure;
use crate::slots::slot_in;
use common::read;

#[derive(Clone, Copy, Default)]
pub struct Block {
    pub start: u32,
    pub end: u32,
    pub rights: u32,
    pub used: u32,
    pub child: u32,
    pub link: u32,
    pub source: u32,
    pub previous: u32,
    pub next: u32,
}

// The slot of block n in the structure at s, where memory may end in it: each word has its own bound.
// One function over a closure that reads a word is no plainer: its contract would take a fact of the closure for each of the nine words.
#[tactic(auto, unfolding(block_memory::specs::Partition::field))]
fn block_by_words(m: &[u32], s: u32, n: u32) -> Block
    ensures { ReadIn m.now s n result }
{
    let i = slot_in(s, n);
    Block {
        start: read(m, i),
        end: read(m, i + 1),
        rights: read(m, i + 2),
        used: read(m, i + 3),
        child: read(m, i + 4),
        link: read(m, i + 5),
        source: read(m, i + 6),
        previous: read(m, i + 7),
        next: read(m, i + 8),
    }
}

// The slot of block n in the structure at s, by one bound for the nine words.
#[tactic(auto, unfolding(block_memory::specs::Partition::field))]
pub fn block_in(m: &[u32], s: u32, n: u32) -> Block
    ensures { ReadIn m.now s n result }
{
    let i = slot_in(s, n);
    if m.len() <= i + 8 {
        return block_by_words(m, s, n);
    }
    Block {
        start: m[i],
        end: m[i + 1],
        rights: m[i + 2],
        used: m[i + 3],
        child: m[i + 4],
        link: m[i + 5],
        source: m[i + 6],
        previous: m[i + 7],
        next: m[i + 8],
    }
}

// Block n of d; nine zeros where d has no such slot.
#[tactic(auto, unfolding(block_memory::specs::Partition::field))]
pub fn block_of(m: &[u32], d: u32, n: u32) -> Block
    ensures { ReadAs m.now d n result }
{
    let s = structure(m, d, n / 8);
    if s == 0 {
        return Block::default();
    }
    block_in(m, s, n)
}
