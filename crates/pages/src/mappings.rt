// The three table words of address a in partition d, read and stored.
ghost use Rattle.std.specs.Prelude.{◌≡◌};
ghost use Rattle.memory.specs.Geometry.{page_of, directory_index};
ghost use Rattle.memory.specs.Words.{word};
ghost use Rattle.memory.specs.Partition;
ghost use Rattle.memory.specs.Partition.{table_for, table_word, put_table_word, set_mapping, set_lent, set_above, in_hand};

use crate::addresses::{PhysicalPage, VirtualPage, directory_index, start_of, virtual_page};
use crate::entries::accessible;
use crate::tables::{put_in, word_in};
use crate::widths::IndexWidth;
use crate::words::read_word;
use common::read;

// The word for virtual page v in the root that word i of d names: 3 is the directory's place, 5 that of shadow 1, 7 that of shadow 2.
fn root_word(b: IndexWidth, m: &[u32], d: PhysicalPage, i: u32, v: VirtualPage) -> u32
    ensures { result ≡ word b.bits m.now (page_of b.bits (word b.bits m.now d.0 i)) (directory_index b.bits v.0) }
{
    read(
        m,
        start_of(b, read_word(b, m, d, i)) + (directory_index(b, v) as usize),
    )
}

// The word of address a in the tables under that root.
fn word_under(b: IndexWidth, m: &[u32], d: PhysicalPage, i: u32, a: u32) -> u32
    ensures { result ≡ table_word b.bits m.now (page_of b.bits (word b.bits m.now d.0 i)) (page_of b.bits a) }
{
    let v = virtual_page(b, a);
    word_in(b, m, root_word(b, m, d, i, v), v)
}

// Stores x there; where the table is absent it does nothing.
fn put_under(b: IndexWidth, m: &mut [u32], d: PhysicalPage, i: u32, a: u32, x: u32)
    ensures { m.new ≡ put_table_word b.bits m.old (page_of b.bits (word b.bits m.old d.0 i)) (page_of b.bits a) x }
{
    let v = virtual_page(b, a);
    let t = root_word(b, m, d, i, v);
    put_in(b, m, t, v, x);
}

// The directory's word for address a: 0, or the address of its page table + 1.
pub fn table_for(b: IndexWidth, m: &[u32], d: PhysicalPage, a: u32) -> u32
    ensures { result ≡ table_for b.bits m.now d.0 a }
{
    root_word(b, m, d, 3, virtual_page(b, a))
}

// The page table word of address a.
pub fn mapping(b: IndexWidth, m: &[u32], d: PhysicalPage, a: u32) -> u32
    ensures { result ≡ Partition.mapping b.bits m.now d.0 a }
{
    word_under(b, m, d, 3, a)
}

// Its shadow 1 word.
pub fn lent(b: IndexWidth, m: &[u32], d: PhysicalPage, a: u32) -> u32
    ensures { result ≡ Partition.lent b.bits m.now d.0 a }
{
    word_under(b, m, d, 5, a)
}

// Its shadow 2 word.
pub fn above(b: IndexWidth, m: &[u32], d: PhysicalPage, a: u32) -> u32
    ensures { result ≡ Partition.above b.bits m.now d.0 a }
{
    word_under(b, m, d, 7, a)
}

// Stores x as the page table word of address a; where the table is absent it does nothing.
pub fn set_mapping(b: IndexWidth, m: &mut [u32], d: PhysicalPage, a: u32, x: u32)
    ensures { m.new ≡ set_mapping b.bits m.old d.0 a x }
{
    put_under(b, m, d, 3, a, x);
}

// As its shadow 1 word.
pub fn set_lent(b: IndexWidth, m: &mut [u32], d: PhysicalPage, a: u32, x: u32)
    ensures { m.new ≡ set_lent b.bits m.old d.0 a x }
{
    put_under(b, m, d, 5, a, x);
}

// As its shadow 2 word.
pub fn set_above(b: IndexWidth, m: &mut [u32], d: PhysicalPage, a: u32, x: u32)
    ensures { m.new ≡ set_above b.bits m.old d.0 a x }
{
    put_under(b, m, d, 7, a, x);
}

// "present, accessible and has shadow 1 word 0"
pub fn in_hand(b: IndexWidth, m: &[u32], d: PhysicalPage, a: u32) -> bool
    ensures { result ≡ in_hand b.bits m.now d.0 a }
{
    let w = mapping(b, m, d, a);
    if w == 0 {
        return false;
    }
    if accessible(w) != 1 {
        return false;
    }
    lent(b, m, d, a) == 0
}
