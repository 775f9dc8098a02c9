// Where a partition's slots stand: "Each partition's page at address 0xFFF00, and for the root its last flat page at 256F".
ghost use Rattle.std.specs.Prelude.{◌≡◌};
ghost use Rattle.memory.specs.Geometry.{page_of};
ghost use Rattle.memory.specs.Contexts.{slots_at, slot_page, no_slots};

use pages::{IndexWidth, PhysicalPage, VirtualPage};

// The rights read, 1, and write, 2.
const READ_AND_WRITE: u32 = 3;

// The virtual page of the slots of partition d: 0xFFF00 is the last one.
fn slots_at(b: IndexWidth, m: &[u32], d: PhysicalPage) -> VirtualPage
    ensures { result.0 ≡ page_of b.bits (slots_at b.bits m.now d.0) }
{
    if d.0 == 1 {
        return VirtualPage(pages::flat_pages(b, pages::pages(b, m)));
    }
    VirtualPage((1 << (2 * b.bits)) - 1)
}

// The page that d's page table has there.
pub fn slot_page(b: IndexWidth, m: &[u32], d: PhysicalPage) -> PhysicalPage
    ensures { result.0 ≡ slot_page b.bits m.now d.0 }
{
    let v = slots_at(b, m, d);
    pages::page_of(b, pages::table_word(b, m, pages::directory(b, m, d), v))
}

// 20: "the slot page .. isn't in its owner's hand with read and write".
pub fn no_slots(b: IndexWidth, m: &[u32], d: PhysicalPage) -> bool
    ensures { result ≡ no_slots b.bits m.now d.0 }
{
    let v = slots_at(b, m, d);
    let w = pages::table_word(b, m, pages::directory(b, m, d), v);
    w == 0
        || pages::accessible(w) != 1
        || pages::table_word(b, m, pages::shadow1(b, m, d), v) != 0
        || !pages::has_rights(READ_AND_WRITE, w)
}
