// The numbers of threes and of flat pages that format makes of n pages, and where the flat pages lie.
ghost use Rattle.std.specs.Prelude.{◌≡◌, ◌+◌, ◌-◌, ◌*◌, ◌<◌};
ghost use Rattle.memory.specs.Geometry.{threes_for, flat_pages};

use crate::addresses::{PhysicalPage, VirtualPage};
use crate::widths::{IndexWidth, page_words};

// T: "the smallest number with 67T ≥ N−5". It is worked out in 64 bits, since n may be any number.
pub fn threes_for(b: IndexWidth, n: u32) -> u32
    ensures { (result ≡ threes_for b.bits n) × (result < 67108864) }
{
    let w = u64::from(page_words(b));
    ((u64::from(n.saturating_sub(5)) + (w + 2)) / (w + 3)) as u32
}

// F: "N−6−3T"
pub fn flat_pages(b: IndexWidth, n: u32) -> u32
    ensures { result ≡ flat_pages b.bits n }
{
    n.saturating_sub(6).saturating_sub(3 * threes_for(b, n))
}

// "maps virtual page v (1 to F) to page 5+3T+v", with t threes.
pub fn flat_page(t: u32, v: VirtualPage) -> PhysicalPage
    requires { 5 + 3 * t + v.0 < 4294967296 }
    ensures { result.0 ≡ 5 + 3 * t + v.0 }
{
    PhysicalPage(5 + 3 * t + v.0)
}
