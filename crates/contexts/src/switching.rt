// "the flag effects listed in 000 ..; the target becomes current".
ghost use Rattle.std.specs.Prelude.{◌≡◌, cond, eqb};
ghost use Rattle.memory.specs.Geometry.{page_of};
ghost use Rattle.memory.specs.Partition.{flag};
ghost use Rattle.rules.specs.Effects.{switch};

use pages::{IndexWidth, PhysicalPage};

// The flag of the caller d after notify and dispatch: "If target is a child, vcli = 0", else it stays.
pub fn caller_flag(b: IndexWidth, m: &[u32], d: PhysicalPage, t: u32) -> u32
    ensures { result ≡ cond (eqb t 0) (flag b.bits m.now d.0) 0 }
{
    if t == 0 {
        return pages::flag(b, m, d);
    }
    0
}

// The flag of the caller d becomes x, that of the partition that w names becomes y, and that one is current.
pub fn switch_to(b: IndexWidth, m: &mut [u32], d: PhysicalPage, w: u32, x: u32, y: u32)
    ensures { m.new ≡ switch b.bits m.old d.0 (page_of b.bits w) x y }
{
    pages::set_flag(b, m, d, x);
    pages::set_flag(b, m, pages::page_of(b, w), y);
    pages::write_word(b, m, PhysicalPage(0), 4, pages::frame(b, w));
}
