// Words that are addresses.
ghost use Rattle.std.specs.Prelude.{◌≡◌, ◌-◌, ◌*◌, ltb, eqb};
ghost use Rattle.memory.specs.Geometry.{address, page_of, page_words};
ghost use Rattle.memory.specs.Partition.{pages};
ghost use Rattle.soundness.specs.Test.{virtual, physical};

use pages::{
    IndexWidth, PhysicalPage, VirtualPage, address_of, frame, index, page_bytes, page_of,
    page_words, place,
};

// The page that the word w names is one of the memory's.
pub fn in_memory(b: IndexWidth, m: &[u32], w: u32) -> bool
    ensures { result ≡ ltb (page_of b.bits w) (pages b.bits m.now) }
{
    page_of(b, w).0 < pages::pages(b, m)
}

// Where the memory ends, in bytes.
pub fn memory_end(b: IndexWidth, m: &[u32]) -> u64
    ensures { result ≡ address b.bits (pages b.bits m.now) }
{
    u64::from(pages::pages(b, m)) * u64::from(page_bytes(b))
}

// The address of the last virtual page.
fn last_address(b: IndexWidth) -> u32
    ensures { result ≡ address b.bits (page_words b.bits * page_words b.bits - 1) }
{
    let n = page_words(b);
    address_of(b, VirtualPage(n * n - 1))
}

// v is the address of a virtual page: "a virtual address has 20 bits". Its place is 0, and it is no higher than the last one.
pub fn virtual_address(b: IndexWidth, v: u32) -> bool
    ensures { result ≡ virtual b.bits v }
{
    place(b, v) == 0 && v <= last_address(b)
}

// a is the address of a physical page: "a physical address is 256k".
#[tactic(auto, unfolding(soundness::specs::Test::physical))]
pub fn physical_address(b: IndexWidth, m: &[u32], a: u32) -> bool
    ensures { result ≡ physical b.bits m.now a }
{
    frame(b, a) == a && in_memory(b, m, a)
}

// w is the address of page p. The address of any number is worked out in 64 bits.
pub fn is_address(b: IndexWidth, w: u32, p: PhysicalPage) -> bool
    ensures { result ≡ eqb w (address b.bits p.0) }
{
    (w as usize) == 4 * index(b, p, 0)
}
