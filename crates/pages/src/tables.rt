// The words of a table, under its root: a directory or a shadow.
ghost use Rattle.std.specs.Prelude.{◌≡◌, cond, eqb};
ghost use Rattle.memory.specs.Geometry.{page_of, table_index};
ghost use Rattle.memory.specs.Words.{word, put};
ghost use Rattle.memory.specs.Partition.{table_word};

use crate::addresses::{PhysicalPage, VirtualPage, directory_index, start_of, table_index};
use crate::widths::IndexWidth;
use crate::words::read_word;
use common::{read, write};

// The word of virtual page v in the table that the word t names; "a word in an absent table counts as 0".
pub fn word_in(b: IndexWidth, m: &[u32], t: u32, v: VirtualPage) -> u32
    ensures { result ≡ cond (eqb t 0) 0 (word b.bits m.now (page_of b.bits t) (table_index b.bits v.0)) }
{
    if t == 0 {
        return 0;
    }
    read(m, start_of(b, t) + (table_index(b, v) as usize))
}

// Stores x there; where the table is absent it does nothing.
pub fn put_in(b: IndexWidth, m: &mut [u32], t: u32, v: VirtualPage, x: u32)
    ensures { m.new ≡ cond (eqb t 0) m.old (put b.bits m.old (page_of b.bits t) (table_index b.bits v.0) x) }
{
    if t == 0 {
        return;
    }
    write(m, start_of(b, t) + (table_index(b, v) as usize), x);
}

// The word of virtual page v in the tables under root, a directory or a shadow.
pub fn table_word(b: IndexWidth, m: &[u32], root: PhysicalPage, v: VirtualPage) -> u32
    ensures { result ≡ table_word b.bits m.now root.0 v.0 }
{
    word_in(b, m, read_word(b, m, root, directory_index(b, v)), v)
}
