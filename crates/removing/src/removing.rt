// remove_vaddr: "undoes 3; answers the caller's address".
ghost use Rattle.std.specs.Prelude.{◌≡◌};
ghost use Rattle.memory.specs.Partition.{above};
ghost use Rattle.soundness.specs.Test.{sound_test};
ghost use Rattle.rules.specs.Call.{remove_vaddr};
ghost use Rattle.rules.specs.Conditions.{child};
ghost use Rattle.rules.specs.Refusals.{refusal};
ghost use Rattle.rules.specs.Effects.{effect};
ghost use Rattle.rules.specs.Calls.{answer, after};
ghost use Rattle.answers.specs.Said.{refusal_in, said};

use answers::{Answer, Refusal};
use pages::IndexWidth;

// 1 3 5 8 15 7. A page that the child has lent on, or given to a partition of its own, is not in its hand.
fn remove_refusal(b: IndexWidth, m: &[u32], good: bool, c: u32, t: u32) -> Result<(), Refusal>
    requires judged { good ≡ sound_test b.bits m.now }
    ensures { refusal_in result ≡ refusal b.bits m.now (remove_vaddr c t) }
{
    moves::child_refusal(b, m, good, &[c, t], c)?;
    let k = moves::child_of(b, m, c);
    if moves::no_three(b, m, k, t) {
        return Err(Refusal::Table);
    }
    if moves::unmapped(b, m, k, t) {
        return Err(Refusal::Unmapped);
    }
    if !pages::in_hand(b, m, k, t) {
        return Err(Refusal::Hand);
    }
    Ok(())
}

// The answer is the caller's address of the page.
fn remove_effect(b: IndexWidth, m: &mut [u32], c: u32, t: u32) -> u32
    ensures { (result ≡ above b.bits m.old (child b.bits m.old c) t) × (m.new ≡ effect b.bits m.old (remove_vaddr c t)) }
{
    let d = pages::current(b, m);
    let k = moves::child_of(b, m, c);
    let v = pages::above(b, m, k, t);
    pages::set_mapping(b, m, k, t, 0);
    pages::set_above(b, m, k, t, 0);
    pages::set_lent(b, m, d, v, 0);
    v
}

// 4. The page at t of the child at c is the caller's again.
pub fn remove_vaddr(b: IndexWidth, m: &mut [u32], good: bool, c: u32, t: u32) -> Answer
    requires judged { good ≡ sound_test b.bits m.old }
    ensures { (said result ≡ answer b.bits m.old (remove_vaddr c t)) × (m.new ≡ after b.bits m.old (remove_vaddr c t)) }
{
    remove_refusal(b, m, good, c, t)?;
    let v = remove_effect(b, m, c, t);
    Ok(v)
}
