// The walk from a partition up to the root.
ghost use Rattle.std.specs.Prelude.{◌≡◌, ◌<◌};
ghost use Rattle.rules.specs.Moves;

use pages::{IndexWidth, PhysicalPage};

// Accessible is set (bit 1) or cleared (bit 0) "in the caller and each ancestor, following shadow 2".
pub fn mark(b: IndexWidth, m: &mut [u32], bit: u32, caller: PhysicalPage, a: u32)
    requires bit { bit < 2 }
    ensures { m.new ≡ Moves.mark b.bits 9 bit m.old caller.0 a }
{
    let mut d = caller;
    let mut v = a;
    for _ in 0..9u32 {
        let w = pages::mapping(b, m, d, v);
        let up = pages::above(b, m, d, v);
        let par = pages::parent(b, m, d);
        pages::set_mapping(b, m, d, v, pages::entry_of(b, w, bit, pages::rights(w)));
        if par.0 == 0 {
            return;
        }
        d = par;
        v = up;
    }
}

// How far partition p is below the root, counted up to n.
pub fn depth(b: IndexWidth, n: u32, m: &[u32], p: PhysicalPage) -> u32
    ensures { result ≡ Moves.depth b.bits n m.now p.0 }
{
    let mut d = p;
    for k in 0..n {
        let par = pages::parent(b, m, d);
        if par.0 == 0 {
            return k;
        }
        d = par;
    }
    n
}
