// "In the code a page is lent on as its own part of the memory, to be wiped or filled there."
ghost use Rattle.std.specs.Prelude.{◌≡◌, ◌≤◌, length};
ghost use Rattle.memory.specs.Geometry.{page_words};
ghost use Rattle.memory.specs.Words.{page, wipe, fill};

use crate::addresses::PhysicalPage;
use crate::widths::{IndexWidth, page_words};
use crate::words::index;
use common::{copy, wipe_words};

// Page p as its own part; what lies past the end of the memory is left out.
pub fn words_of(b: IndexWidth, m: &[u32], p: PhysicalPage) -> &[u32]
    ensures { result.now ≡ page b.bits m.now p.0 }
{
    let a = index(b, p, 0).min(m.len());
    let e = index(b, p, page_words(b)).min(m.len());
    &m[a..e]
}

// A page is lent as its own part, and wiped; what lies past the end of the memory is left out.
pub fn wipe_page(b: IndexWidth, m: &mut [u32], p: PhysicalPage)
    ensures { m.new ≡ wipe b.bits m.old p.0 }
{
    wipe_words(m, index(b, p, 0), page_words(b) as usize);
}

// A page is lent as its own part, and filled from its start with the words ws.
pub fn fill_page(b: IndexWidth, m: &mut [u32], p: PhysicalPage, ws: &[u32])
    requires fits { length ws.now ≤ page_words b.bits }
    ensures { m.new ≡ fill b.bits m.old p.0 ws.now }
{
    let a = index(b, p, 0).min(m.len());
    let e = index(b, p, page_words(b)).min(m.len());
    copy(&mut m[a..e], ws);
}
