// The pairs of a descriptor and of a list, and what is asked of them.
ghost use Rattle.std.specs.Prelude.{◌≡◌, ◌&&◌, ◌+◌, ◌*◌, ◌<◌, ◌≤◌};
ghost use Rattle.walk.specs.Finite.{from, all};
ghost use Rattle.memory.specs.Words.{word};
ghost use Rattle.memory.specs.Partition;
ghost use Rattle.soundness.specs.Test.{virtual, physical, agrees, shut_at};
ghost use Rattle.own_pages.specs.Asked.{pair_form, pair_shut};

use crate::addresses::{physical_address, virtual_address};
use crate::own::Own;
use crate::roots::list_word;
use pages::{IndexWidth, PhysicalPage, accessible, frame, read_word, table_word, virtual_page};

// "pairs of virtual address in the parent and physical address"
#[derive(Clone, Copy)]
pub struct Pair(pub u32, pub u32);

// Pair j of d's list.
pub fn list_pair(b: IndexWidth, m: &[u32], d: PhysicalPage, j: u32) -> Pair
    ensures { (result.0 ≡ word b.bits m.now (Partition.list b.bits m.now d.0) (1 + 2 * j))
        × (result.1 ≡ word b.bits m.now (Partition.list b.bits m.now d.0) (2 + 2 * j)) }
{
    let i = 2 * (j as usize);
    Pair(list_word(b, m, d, 1 + i), list_word(b, m, d, 2 + i))
}

// Pair j of page p, whose pairs start at word k.
pub fn pair_at(b: IndexWidth, m: &[u32], p: PhysicalPage, k: u32, j: u32) -> Pair
    requires small { (k < 2) × (j < 30) }
    ensures { (result.0 ≡ word b.bits m.now p.0 (k + 2 * j)) × (result.1 ≡ word b.bits m.now p.0 (k + 1 + 2 * j)) }
{
    Pair(
        read_word(b, m, p, k + 2 * j),
        read_word(b, m, p, k + 1 + 2 * j),
    )
}

// A pair of a virtual and a physical address.
pub fn pair_form(b: IndexWidth, m: &[u32], p: Pair) -> bool
    ensures { result ≡ virtual b.bits p.0 && physical b.bits m.now p.1 }
{
    virtual_address(b, p.0) && physical_address(b, m, p.1)
}

// Pair j of page p has that form.
fn form_at(b: IndexWidth, m: &[u32], p: PhysicalPage, k: u32, j: u32) -> bool
    requires small { (k < 2) × (j < 30) }
    ensures { result ≡ pair_form b.bits m.now p.0 k j }
{
    pair_form(b, m, pair_at(b, m, p, k, j))
}

// The first n pairs of page p, which start at word k.
pub fn pairs_form(b: IndexWidth, m: &[u32], p: PhysicalPage, k: u32, n: u32) -> bool
    requires small { (k < 2) × (n ≤ 30) }
    ensures { result ≡ all (pair_form b.bits m.now p.0 k) (from n 0) }
{
    (0..n).all(|j| form_at(b, m, p, k, j))
}

impl Own<'_> {
    // "agree with the parent's tables": it maps the physical page of the pair at its virtual address; and "mapped inaccessible in its parent, not lent".
    pub fn pair_shut(&self, p: Pair) -> bool
        ensures { result
            ≡ agrees self.now.width.bits self.now.words.now self.now.descriptor.0 p.0 p.1
            && shut_at self.now.width.bits self.now.words.now self.now.descriptor.0 p.0 }
    {
        let v = virtual_page(self.width, p.0);
        let w = table_word(self.width, self.words, self.directory, v);
        if w == 0 {
            return false;
        }
        if frame(self.width, w) != p.1 {
            return false;
        }
        if accessible(w) != 0 {
            return false;
        }
        table_word(self.width, self.words, self.shadow1, v) <= 1
    }

    // So it is with pair j of page p.
    fn shut_at(&self, p: PhysicalPage, k: u32, j: u32) -> bool
        requires small { (k < 2) × (j < 30) }
        ensures { result ≡ pair_shut self.now.width.bits self.now.words.now self.now.descriptor.0 p.0 k j }
    {
        self.pair_shut(pair_at(self.width, self.words, p, k, j))
    }

    // The first n pairs of page p, which start at word k.
    pub fn pairs_shut(&self, p: PhysicalPage, k: u32, n: u32) -> bool
        requires small { (k < 2) × (n ≤ 30) }
        ensures { result ≡ all (pair_shut self.now.width.bits self.now.words.now self.now.descriptor.0 p.0 k) (from n 0) }
    {
        (0..n).all(|j| self.shut_at(p, k, j))
    }
}
