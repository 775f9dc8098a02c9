// The conditions of "When the kernel says no" that several calls share. The caller is the current partition.
ghost use Rattle.std.specs.Prelude.{◌≡◌};
ghost use Rattle.walk.specs.Finite.{any};
ghost use Rattle.rules.specs.Conditions;
ghost use Rattle.rules.specs.Conditions.{bad_page, no_child, child, not_in_hand, no_three, list_full};

use pages::{IndexWidth, PhysicalPage};

// 3, over all the addresses vs.
pub fn any_bad(b: IndexWidth, vs: &[u32]) -> bool
    ensures { result ≡ any (bad_page b.bits) vs.now }
{
    vs.iter().any(|v| pages::bad_page(b, *v))
}

// 5: "the caller's shadow 1 word there isn't 1".
pub fn no_child(b: IndexWidth, m: &[u32], c: u32) -> bool
    ensures { result ≡ no_child b.bits m.now c }
{
    pages::lent(b, m, pages::current(b, m), c) != 1
}

// The child that stands at address c of the caller.
pub fn child_of(b: IndexWidth, m: &[u32], c: u32) -> PhysicalPage
    ensures { result.0 ≡ child b.bits m.now c }
{
    pages::page_of(b, pages::mapping(b, m, pages::current(b, m), c))
}

// 6: "right not held", of the rights r at address a of the caller.
pub fn lacks(b: IndexWidth, r: u32, m: &[u32], a: u32) -> bool
    ensures { result ≡ Conditions.lacks b.bits r m.now a }
{
    !pages::has_rights(r, pages::mapping(b, m, pages::current(b, m), a))
}

// 7: "page not in the caller's hand".
pub fn not_in_hand(b: IndexWidth, m: &[u32], a: u32) -> bool
    ensures { result ≡ not_in_hand b.bits m.now a }
{
    !pages::in_hand(b, m, pages::current(b, m), a)
}

// 8: "the child has no three for target", the child d and the target a.
pub fn no_three(b: IndexWidth, m: &[u32], d: PhysicalPage, a: u32) -> bool
    ensures { result ≡ no_three b.bits m.now d.0 a }
{
    pages::table_for(b, m, d, a) == 0
}

// 15: "no mapping there", at address a of partition d.
pub fn unmapped(b: IndexWidth, m: &[u32], d: PhysicalPage, a: u32) -> bool
    ensures { result ≡ Conditions.unmapped b.bits m.now d.0 a }
{
    pages::mapping(b, m, d, a) == 0
}

// 10: "three absent and 10 threes exist".
pub fn list_full(b: IndexWidth, m: &[u32], d: PhysicalPage, a: u32) -> bool
    ensures { result ≡ list_full b.bits m.now d.0 a }
{
    no_three(b, m, d, a) && 10 <= pages::threes(b, m, d)
}

// 16: "mapped, not accessible", of a mapping of the caller.
pub fn inaccessible(b: IndexWidth, m: &[u32], a: u32) -> bool
    ensures { result ≡ Conditions.inaccessible b.bits m.now a }
{
    pages::accessible(pages::mapping(b, m, pages::current(b, m), a)) == 0
}
