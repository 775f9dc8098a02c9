// Pages that partition d lent to the child at address c are its own again.
ghost use Rattle.std.specs.Prelude.{◌≡◌, cond, ◌+◌, ◌*◌, ◌<◌, ◌≤◌, eqb};
ghost use Rattle.memory.specs.Geometry.{page_words};
ghost use Rattle.memory.specs.Partition.{lent};
ghost use Rattle.rules.specs.Effects;
ghost use Rattle.rules.specs.Effects.{release_all};

use pages::{IndexWidth, PhysicalPage, VirtualPage};

// A page lent to the child is returned. Whether it was a kernel page, of a partition below the child, is read before anything of it changes.
fn release(b: IndexWidth, m: &mut [u32], d: PhysicalPage, a: u32)
    ensures { m.new ≡ Effects.release b.bits m.old d.0 a }
{
    let kernel = pages::accessible(pages::mapping(b, m, d, a)) == 0;
    pages::set_lent(b, m, d, a, 0);
    moves::return_page(b, m, kernel, d, a);
}

// The page at address a, if it is lent to the child at c.
fn release_if(b: IndexWidth, m: &mut [u32], d: PhysicalPage, c: u32, a: u32)
    ensures { m.new ≡ cond (eqb (lent b.bits m.old d.0 a) c) (Effects.release b.bits m.old d.0 a) m.old }
{
    if pages::lent(b, m, d, a) == c {
        release(b, m, d, a);
    }
}

// The n virtual pages from page v on.
fn release_run(b: IndexWidth, m: &mut [u32], d: PhysicalPage, c: u32, v: VirtualPage, n: u32)
    requires inside { v.0 + n ≤ page_words b.bits * page_words b.bits }
    ensures { m.new ≡ release_all b.bits n v.0 m.old d.0 c }
{
    for k in 0..n {
        release_if(b, m, d, c, pages::address_of(b, VirtualPage(v.0 + k)));
    }
}

// The virtual pages of directory index i, if there is a table and c stands in it.
fn release_table(b: IndexWidth, m: &mut [u32], d: PhysicalPage, c: u32, i: u32)
    requires inside { (i < page_words b.bits) × (0 < c) }
    ensures { m.new ≡ release_all b.bits (page_words b.bits) (i * page_words b.bits) m.old d.0 c }
{
    let s = pages::shadow1(b, m, d);
    let w = pages::read_word(b, m, s, i);
    if w == 0 {
        return;
    }
    if !pages::words_of(b, m, pages::page_of(b, w)).contains(&c) {
        return;
    }
    let k = pages::page_words(b);
    release_run(b, m, d, c, VirtualPage(i * k), k);
}

// All pages lent to the child at c. Only tables that exist are looked at, and only those in which c stands are gone through.
pub fn release_all(b: IndexWidth, m: &mut [u32], d: PhysicalPage, c: u32)
    requires some { 0 < c }
    ensures { m.new ≡ release_all b.bits (page_words b.bits * page_words b.bits) 0 m.old d.0 c }
{
    for i in 0..pages::page_words(b) {
        release_table(b, m, d, c, i);
    }
}
