// An address is cut into a page number, two table indices and a place, and a page number joined to its address again.
ghost use Rattle.std.specs.Prelude.{◌≡◌, ◌+◌, ◌/◌, ◌%◌, ◌^◌, ◌<◌, ◌≤◌};
ghost use Rattle.memory.specs.Geometry;
ghost use Rattle.memory.specs.Geometry.{page_of, directory_index, table_index};
ghost use Rattle.memory.specs.Words.{start};
ghost use Rattle.rules.specs.Conditions.{bad_address, bad_page};

use crate::widths::{IndexWidth, page_bytes};

// "Virtual and physical page numbers must be kinds that can't be mixed up."
#[derive(Clone, Copy)]
pub struct PhysicalPage(pub u32);

#[derive(Clone, Copy)]
pub struct VirtualPage(pub u32);

// The field of x above its lowest n bits.
fn high(x: u32, n: u32) -> u32
    requires { n < 32 }
    ensures { result ≡ x / 2 ^ n }
{
    x >> n
}

// The field of the lowest n bits of x.
fn low(x: u32, n: u32) -> u32
    requires { n < 32 }
    ensures { result ≡ x % 2 ^ n }
{
    x & ((1 << n) - 1)
}

// The page of a physical address, of a table word or of a directory word.
pub fn page_of(b: IndexWidth, w: u32) -> PhysicalPage
    ensures { result.0 ≡ page_of b.bits w }
{
    PhysicalPage(high(w, b.bits + 2))
}

// Where the page of a word starts in the memory. The bits below the page are cut off, so that nothing is shifted by the width: the judge asks this of every
// mapping.
pub fn start_of(b: IndexWidth, w: u32) -> usize
    ensures { (result ≡ start b.bits (page_of b.bits w)) × (result < 1073741824) }
{
    let i = w >> 2;
    (i - low(i, b.bits)) as usize
}

// The page of a virtual address.
pub fn virtual_page(b: IndexWidth, a: u32) -> VirtualPage
    ensures { result.0 ≡ page_of b.bits a }
{
    VirtualPage(high(a, b.bits + 2))
}

// "top 6 index the directory"
pub fn directory_index(b: IndexWidth, v: VirtualPage) -> u32
    ensures { result ≡ directory_index b.bits v.0 }
{
    high(v.0, b.bits)
}

// "next 6 the table"
pub fn table_index(b: IndexWidth, v: VirtualPage) -> u32
    ensures { result ≡ table_index b.bits v.0 }
{
    low(v.0, b.bits)
}

// "low 8 the place in the page"
pub fn place(b: IndexWidth, a: u32) -> u32
    ensures { result ≡ Geometry.place b.bits a }
{
    low(a, b.bits + 2)
}

// Where page number k starts, in bytes: the same for either kind.
fn start(b: IndexWidth, k: u32) -> u32
    requires fits { Geometry.address b.bits k < 4294967296 }
    ensures { result ≡ Geometry.address b.bits k }
{
    k << (b.bits + 2)
}

// "A physical address is 256k."
pub fn address(b: IndexWidth, p: PhysicalPage) -> u32
    requires fits { Geometry.address b.bits p.0 < 4294967296 }
    ensures { result ≡ Geometry.address b.bits p.0 }
{
    start(b, p.0)
}

// The address of a virtual page.
pub fn address_of(b: IndexWidth, v: VirtualPage) -> u32
    requires fits { Geometry.address b.bits v.0 < 4294967296 }
    ensures { result ≡ Geometry.address b.bits v.0 }
{
    start(b, v.0)
}

// The address of the page that a word names: it always fits, with room for the flags.
pub fn frame(b: IndexWidth, w: u32) -> u32
    ensures { (result ≡ Geometry.address b.bits (page_of b.bits w)) × (result + 256 ≤ 4294967296) }
{
    address(b, page_of(b, w))
}

// "≥ 2^20, on page 0, or not a multiple of 256 (load, store: of 4)". The end is 2^32 at width 10, so it is compared in 64 bits.
pub fn bad_address(b: IndexWidth, unit: u32, a: u32) -> bool
    requires unit { 0 < unit }
    ensures { result ≡ bad_address b.bits unit a }
{
    if (1u64 << (3 * b.bits + 2)) <= (a as u64) {
        return true;
    }
    if a < page_bytes(b) {
        return true;
    }
    a % unit != 0
}

// The same, of an address that must be a page's.
pub fn bad_page(b: IndexWidth, a: u32) -> bool
    ensures { result ≡ bad_page b.bits a }
{
    bad_address(b, page_bytes(b), a)
}
