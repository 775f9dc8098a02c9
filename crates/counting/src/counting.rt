// page_count: "0 if the three are there, else 3".
ghost use Rattle.std.specs.Prelude.{◌≡◌};
ghost use Rattle.soundness.specs.Test.{sound_test};
ghost use Rattle.rules.specs.Call.{page_count};
ghost use Rattle.rules.specs.Refusals.{refusal};
ghost use Rattle.rules.specs.Calls.{result as result_of, answer, after};
ghost use Rattle.answers.specs.Said.{refusal_in, said};

use answers::{Answer, Refusal};
use pages::IndexWidth;

// 1 3 5 10
fn count_refusal(b: IndexWidth, m: &[u32], good: bool, c: u32, t: u32) -> Result<(), Refusal>
    requires judged { good ≡ sound_test b.bits m.now }
    ensures { refusal_in result ≡ refusal b.bits m.now (page_count c t) }
{
    moves::child_refusal(b, m, good, &[c, t], c)?;
    if moves::list_full(b, m, moves::child_of(b, m, c), t) {
        return Err(Refusal::List);
    }
    Ok(())
}

// How many pages the child at c lacks for a mapping at t.
fn pages_lacking(b: IndexWidth, m: &[u32], c: u32, t: u32) -> u32
    ensures { result ≡ result_of b.bits m.now (page_count c t) }
{
    if moves::no_three(b, m, moves::child_of(b, m, c), t) {
        return 3;
    }
    0
}

// 5. The child stands at c of the caller, and t is an address of its own.
pub fn page_count(b: IndexWidth, m: &[u32], good: bool, c: u32, t: u32) -> Answer
    requires judged { good ≡ sound_test b.bits m.now }
    ensures { (said result ≡ answer b.bits m.now (page_count c t)) × (m.now ≡ after b.bits m.now (page_count c t)) }
{
    count_refusal(b, m, good, c, t)?;
    Ok(pages_lacking(b, m, c, t))
}
