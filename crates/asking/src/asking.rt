// mapped_in_child: "the child's descriptor address, or 0 if not lent". A page that serves as a child's kernel page is refused (document 02, L2).
ghost use Rattle.std.specs.Prelude.{◌≡◌};
ghost use Rattle.soundness.specs.Test.{sound_test};
ghost use Rattle.rules.specs.Call.{mapped_in_child};
ghost use Rattle.rules.specs.Conditions.{serves_child};
ghost use Rattle.rules.specs.Refusals.{refusal};
ghost use Rattle.rules.specs.Calls.{answer, after};
ghost use Rattle.answers.specs.Said.{refusal_in, said};

use answers::{Answer, Refusal};
use pages::IndexWidth;

// 16: "mapped, inaccessible, not lent", of a mapping of the caller.
fn serves_child(b: IndexWidth, m: &[u32], p: u32) -> bool
    ensures { result ≡ serves_child b.bits m.now p }
{
    if !moves::inaccessible(b, m, p) {
        return false;
    }
    pages::lent(b, m, pages::current(b, m), p) <= 1
}

// 1 3 15 16
fn mapped_refusal(b: IndexWidth, m: &[u32], good: bool, p: u32) -> Result<(), Refusal>
    requires judged { good ≡ sound_test b.bits m.now }
    ensures { refusal_in result ≡ refusal b.bits m.now (mapped_in_child p) }
{
    moves::page_refusal(b, m, good, &[p])?;
    if moves::unmapped(b, m, pages::current(b, m), p) {
        return Err(Refusal::Unmapped);
    }
    if serves_child(b, m, p) {
        return Err(Refusal::Kernel);
    }
    Ok(())
}

// 8. The page at p of the caller.
pub fn mapped_in_child(b: IndexWidth, m: &[u32], good: bool, p: u32) -> Answer
    requires judged { good ≡ sound_test b.bits m.now }
    ensures { (said result ≡ answer b.bits m.now (mapped_in_child p)) × (m.now ≡ after b.bits m.now (mapped_in_child p)) }
{
    mapped_refusal(b, m, good, p)?;
    Ok(pages::lent(b, m, pages::current(b, m), p))
}
