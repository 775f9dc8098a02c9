// Pages of partition d taken and returned, one and all.
ghost use Rattle.std.specs.Prelude.{◌≡◌};
ghost use Rattle.memory.specs.Geometry.{page_of};
ghost use Rattle.memory.specs.Words.{wipe};
ghost use Rattle.memory.specs.Partition.{mapping};
ghost use Rattle.rules.specs.Moves.{take_page, return_page, take_all, return_all};

use crate::ancestors::mark;
use pages::{IndexWidth, PhysicalPage};

// The page at address a of partition d is wiped.
fn wipe_at(b: IndexWidth, m: &mut [u32], d: PhysicalPage, a: u32)
    ensures { m.new ≡ wipe b.bits m.old (page_of b.bits (mapping b.bits m.old d.0 a)) }
{
    let p = pages::page_of(b, pages::mapping(b, m, d, a));
    pages::wipe_page(b, m, p);
}

// "Take": wipe, and clear accessible in the caller and each ancestor.
pub fn take_page(b: IndexWidth, m: &mut [u32], d: PhysicalPage, a: u32)
    ensures { m.new ≡ take_page b.bits m.old d.0 a }
{
    wipe_at(b, m, d, a);
    mark(b, m, 0, d, a);
}

// "Return" a page: "set it accessible as before, and wipe it if it was a kernel page or if the caller holds write" (document 02, L3). One that was no
// kernel page is accessible already, and is not looked for in the ancestors.
pub fn return_page(b: IndexWidth, m: &mut [u32], kernel: bool, d: PhysicalPage, a: u32)
    ensures { m.new ≡ return_page b.bits kernel m.old d.0 a }
{
    if kernel {
        wipe_at(b, m, d, a);
        mark(b, m, 1, d, a);
        return;
    }
    if pages::has_rights(2, pages::mapping(b, m, d, a)) {
        wipe_at(b, m, d, a);
    }
}

// Takes the pages at the addresses vs, in order.
pub fn take_all(b: IndexWidth, m: &mut [u32], d: PhysicalPage, vs: &[u32])
    ensures { m.new ≡ take_all b.bits m.old d.0 vs.now }
{
    for v in vs {
        take_page(b, m, d, *v);
    }
}

// Returns the kernel pages at the addresses vs, in order.
pub fn return_all(b: IndexWidth, m: &mut [u32], d: PhysicalPage, vs: &[u32])
    ensures { m.new ≡ return_all b.bits m.old d.0 vs.now }
{
    for v in vs {
        return_page(b, m, true, d, *v);
    }
}
