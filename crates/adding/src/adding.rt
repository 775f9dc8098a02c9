// add_vaddr: "maps page at target in the child, accessible, with rights; child's shadow 2 there is page; caller's shadow 1 at page is child".
ghost use Rattle.std.specs.Prelude.{◌≡◌, ◌<◌};
ghost use Rattle.soundness.specs.Test.{sound_test};
ghost use Rattle.rules.specs.Call.{add_vaddr};
ghost use Rattle.rules.specs.Refusals.{refusal};
ghost use Rattle.rules.specs.Effects.{effect};
ghost use Rattle.rules.specs.Calls.{answer, after};
ghost use Rattle.answers.specs.Said.{refusal_in, said};

use answers::{Answer, Refusal};
use pages::IndexWidth;

// 1 3 6 5 7 6 8 9. The first 6: "number above 7", and rights 6 and 7 (document 02, L7).
fn add_refusal(
    b: IndexWidth,
    m: &[u32],
    good: bool,
    p: u32,
    c: u32,
    t: u32,
    r: u32,
) -> Result<(), Refusal>
    requires judged { good ≡ sound_test b.bits m.now }
    ensures { refusal_in result ≡ refusal b.bits m.now (add_vaddr p c t r) }
{
    moves::page_refusal(b, m, good, &[p, c, t])?;
    if r >= 6 {
        return Err(Refusal::Rights);
    }
    if moves::no_child(b, m, c) {
        return Err(Refusal::Child);
    }
    if moves::not_in_hand(b, m, p) {
        return Err(Refusal::Hand);
    }
    if moves::lacks(b, r, m, p) {
        return Err(Refusal::Rights);
    }
    let k = moves::child_of(b, m, c);
    if moves::no_three(b, m, k, t) {
        return Err(Refusal::Table);
    }
    if !moves::unmapped(b, m, k, t) {
        return Err(Refusal::Taken);
    }
    Ok(())
}

fn add_effect(b: IndexWidth, m: &mut [u32], p: u32, c: u32, t: u32, r: u32)
    requires rights { r < 8 }
    ensures { m.new ≡ effect b.bits m.old (add_vaddr p c t r) }
{
    let d = pages::current(b, m);
    let k = moves::child_of(b, m, c);
    let w = pages::entry_of(b, pages::mapping(b, m, d, p), 1, r);
    pages::set_mapping(b, m, k, t, w);
    pages::set_above(b, m, k, t, p);
    pages::set_lent(b, m, d, p, c);
}

// 3. The page at p of the caller is lent to the child at c, which has it at t with the rights r.
pub fn add_vaddr(b: IndexWidth, m: &mut [u32], good: bool, p: u32, c: u32, t: u32, r: u32) -> Answer
    requires judged { good ≡ sound_test b.bits m.old }
    ensures { (said result ≡ answer b.bits m.old (add_vaddr p c t r)) × (m.new ≡ after b.bits m.old (add_vaddr p c t r)) }
{
    add_refusal(b, m, good, p, c, t, r)?;
    add_effect(b, m, p, c, t, r);
    Ok(0)
}
