// A page table word: a page's address, and flags below the page's size.
ghost use Rattle.std.specs.Prelude.{◌≡◌, ◌&&◌, ◌<◌, eqb};
ghost use Rattle.memory.specs.Geometry.{page_of};
ghost use Rattle.memory.specs.Entry;
ghost use Rattle.memory.specs.Entry.{entry, holds};

use crate::addresses::frame;
use crate::widths::IndexWidth;

// "physical address + 1 + 2·accessible + 4·rights", of the page that w names.
pub fn entry_of(b: IndexWidth, w: u32, acc: u32, rights: u32) -> u32
    requires flags { (acc < 2) × (rights < 8) }
    ensures { result ≡ entry b.bits (page_of b.bits w) acc rights }
{
    frame(b, w) + 1 + 2 * acc + 4 * rights
}

// The accessible bit of a page table word.
pub fn accessible(w: u32) -> u32
    ensures { result ≡ Entry.accessible w }
{
    w / 2 % 2
}

// The rights of a page table word.
pub fn rights(w: u32) -> u32
    ensures { result ≡ Entry.rights w }
{
    w / 4 % 8
}

// All of the rights r are among those of the word w.
pub fn has_rights(r: u32, w: u32) -> bool
    ensures { result ≡ holds r w }
{
    r & rights(w) == r
}

// What the word w adds to the flags of u, as bits: 0 exactly where both have the same accessible bit (bit 1) and u has all rights of w (bits 2 to 4). The
// judge asks this of every mapping, so that it is one number and not two tests.
pub fn flags_added(w: u32, u: u32) -> u32
    ensures { eqb result 0 ≡ (eqb (Entry.accessible w) (Entry.accessible u) && holds (Entry.rights w) u) }
{
    ((w ^ u) & 2) | (w & (w ^ u) & 28)
}
