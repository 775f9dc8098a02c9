// A child's roots and list, and the three that stands in them.
ghost use Rattle.std.specs.Prelude.{◌≡◌, ◌+◌, ◌*◌, ◌<◌, ◌≤◌};
ghost use Rattle.memory.specs.Words;
ghost use Rattle.memory.specs.Words.{word, put, page, overwrite, fill};
ghost use Rattle.memory.specs.Partition.{directory, shadow1, shadow2, list, table_for};
ghost use Rattle.rules.specs.Effects.{drop_three, three_place};
ghost use Rattle.threes.specs.Standing.{Listed, Standing, put_three, dropped};

use pages::{IndexWidth, PhysicalPage};

#[derive(Clone, Copy)]
pub struct Roots {
    pub directory: PhysicalPage,
    pub shadow1: PhysicalPage,
    pub shadow2: PhysicalPage,
}

pub fn roots_of(b: IndexWidth, m: &[u32], k: PhysicalPage) -> Roots
    ensures { (result.directory.0 ≡ directory b.bits m.now k.0)
        × (result.shadow1.0 ≡ shadow1 b.bits m.now k.0)
        × (result.shadow2.0 ≡ shadow2 b.bits m.now k.0) }
{
    Roots {
        directory: pages::directory(b, m, k),
        shadow1: pages::shadow1(b, m, k),
        shadow2: pages::shadow2(b, m, k),
    }
}

// Word i of the directory, of shadow 1 and of shadow 2.
pub fn put_three(b: IndexWidth, m: &mut [u32], r: Roots, i: u32, x: u32, y: u32, z: u32)
    ensures { m.new ≡ put_three b.bits m.old r.directory.0 r.shadow1.0 r.shadow2.0 i x y z }
{
    pages::write_word(b, m, r.directory, i, x);
    pages::write_word(b, m, r.shadow1, i, y);
    pages::write_word(b, m, r.shadow2, i, z);
}

// "appends to list": the six words ws stand from the first free one on, and word 0 rises by 6.
pub fn append_three(b: IndexWidth, m: &mut [u32], l: PhysicalPage, free: u32, ws: &[u32; 6])
    requires few { free ≤ 61 }
    ensures { m.new ≡ put b.bits (overwrite m.old (Words.index b.bits l.0 free) ws.now) l.0 0 (free + 6) }
{
    pages::put_words(m, pages::index(b, l, free), ws);
    pages::write_word(b, m, l, 0, free + 6);
}

// The place in k's list of the three for t.
pub fn three_place(b: IndexWidth, m: &[u32], k: PhysicalPage, t: u32) -> u32
    requires some { 0 < table_for b.bits m.now k.0 t }
    requires few { word b.bits m.now (list b.bits m.now k.0) 0 ≤ 61 }
    ensures { (result ≡ three_place b.bits m.now k.0 t) × (result ≤ 10) }
{
    let a = pages::table_for(b, m, k, t) - 1;
    let l = pages::list(b, m, k);
    let n = pages::threes(b, m, k);
    for j in 0..n {
        if pages::read_word(b, m, l, 2 + 6 * j) == a {
            return j;
        }
    }
    n
}

// "later list pairs move down in order": the later words are copied six words lower, with six zeros behind them.
fn drop_three(b: IndexWidth, m: &mut [u32], l: PhysicalPage, j: u32)
    requires listed { Listed b.bits m.old l.0 j }
    ensures { m.new ≡ fill b.bits m.old l.0 (drop_three j (page b.bits m.old l.0)) }
{
    let free = pages::read_word(b, m, l, 0);
    let end = pages::index(b, l, free);
    m.copy_within(
        pages::index(b, l, 7 + 6 * j)..end,
        pages::index(b, l, 1 + 6 * j),
    );
    m[end - 6..end].fill(0);
    pages::write_word(b, m, l, 0, free - 6);
}

// "drops the three": place j of k's list, and the words of k's roots for t.
pub fn drop_listed(b: IndexWidth, m: &mut [u32], k: PhysicalPage, t: u32, j: u32)
    requires stands { Standing b.bits m.old k.0 t }
    requires place { j ≡ three_place b.bits m.old k.0 t }
    ensures { m.new ≡ dropped b.bits m.old k.0 t j }
{
    let l = pages::list(b, m, k);
    let r = roots_of(b, m, k);
    let i = pages::directory_index(b, pages::virtual_page(b, t));
    drop_three(b, m, l, j);
    put_three(b, m, r, i, 0, 0, 0);
}
