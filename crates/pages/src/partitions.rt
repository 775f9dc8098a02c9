// What the header and a descriptor name. A partition is named by the page d of its descriptor.
ghost use Rattle.std.specs.Prelude.{◌≡◌};
ghost use Rattle.memory.specs.Geometry.{page_of};
ghost use Rattle.memory.specs.Words.{word};
ghost use Rattle.memory.specs.Partition;
ghost use Rattle.memory.specs.Partition.{set_flag};

use crate::addresses::{PhysicalPage, page_of};
use crate::widths::IndexWidth;
use crate::words::{read_word, write_word};

// "word 0 N"
pub fn pages(b: IndexWidth, m: &[u32]) -> u32
    ensures { result ≡ Partition.pages b.bits m.now }
{
    read_word(b, m, PhysicalPage(0), 0)
}

// The page that word i of page d names.
pub fn named(b: IndexWidth, m: &[u32], d: PhysicalPage, i: u32) -> PhysicalPage
    ensures { result.0 ≡ page_of b.bits (word b.bits m.now d.0 i) }
{
    page_of(b, read_word(b, m, d, i))
}

// The current partition.
pub fn current(b: IndexWidth, m: &[u32]) -> PhysicalPage
    ensures { result.0 ≡ Partition.current b.bits m.now }
{
    named(b, m, PhysicalPage(0), 4)
}

// "pairs of virtual address in the parent and physical address, for descriptor, directory, shadow 1, shadow 2, list; then 0 and the parent's
// descriptor address": these five name the page that the second word of a pair holds.
pub fn directory(b: IndexWidth, m: &[u32], d: PhysicalPage) -> PhysicalPage
    ensures { result.0 ≡ Partition.directory b.bits m.now d.0 }
{
    named(b, m, d, 3)
}

pub fn shadow1(b: IndexWidth, m: &[u32], d: PhysicalPage) -> PhysicalPage
    ensures { result.0 ≡ Partition.shadow1 b.bits m.now d.0 }
{
    named(b, m, d, 5)
}

pub fn shadow2(b: IndexWidth, m: &[u32], d: PhysicalPage) -> PhysicalPage
    ensures { result.0 ≡ Partition.shadow2 b.bits m.now d.0 }
{
    named(b, m, d, 7)
}

pub fn list(b: IndexWidth, m: &[u32], d: PhysicalPage) -> PhysicalPage
    ensures { result.0 ≡ Partition.list b.bits m.now d.0 }
{
    named(b, m, d, 9)
}

pub fn parent(b: IndexWidth, m: &[u32], d: PhysicalPage) -> PhysicalPage
    ensures { result.0 ≡ Partition.parent b.bits m.now d.0 }
{
    named(b, m, d, 11)
}

// "The live vcli flag is word 12 of the descriptor" (document 02, L8).
pub fn flag(b: IndexWidth, m: &[u32], d: PhysicalPage) -> u32
    ensures { result ≡ Partition.flag b.bits m.now d.0 }
{
    read_word(b, m, d, 12)
}

pub fn set_flag(b: IndexWidth, m: &mut [u32], d: PhysicalPage, x: u32)
    ensures { m.new ≡ set_flag b.bits m.old d.0 x }
{
    write_word(b, m, d, 12, x);
}

// "word 0 first free word index, 1+6n with n threes"
pub fn threes(b: IndexWidth, m: &[u32], d: PhysicalPage) -> u32
    ensures { result ≡ Partition.threes b.bits m.now d.0 }
{
    let free = read_word(b, m, list(b, m, d), 0);
    if free == 0 {
        return 0;
    }
    (free - 1) / 6
}
