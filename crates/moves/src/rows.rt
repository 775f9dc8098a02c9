// The refusals with which several calls' rows begin.
ghost use Rattle.std.specs.Prelude.{◌≡◌};
ghost use Rattle.soundness.specs.Test.{sound_test};
ghost use Rattle.rules.specs.Row.{first};
ghost use Rattle.answers.specs.Said.{refusal_in};
ghost use Rattle.moves.specs.Rows.{page_checks, child_checks};

use crate::conditions::{any_bad, no_child};
use answers::Refusal;
use pages::IndexWidth;

// 1 3, over the page addresses vs. `good` is what the judge says of m, here and in each call: a struct with that answer would still need a clause that says of
// which memory it is.
pub fn page_refusal(b: IndexWidth, m: &[u32], good: bool, vs: &[u32]) -> Result<(), Refusal>
    requires judged { good ≡ sound_test b.bits m.now }
    ensures { refusal_in result ≡ first (page_checks b.bits m.now vs.now) }
{
    if !good {
        return Err(Refusal::Damaged);
    }
    if any_bad(b, vs) {
        return Err(Refusal::Address);
    }
    Ok(())
}

// 1 3 5, over the page addresses vs and the child at c.
pub fn child_refusal(
    b: IndexWidth,
    m: &[u32],
    good: bool,
    vs: &[u32],
    c: u32,
) -> Result<(), Refusal>
    requires judged { good ≡ sound_test b.bits m.now }
    ensures { refusal_in result ≡ first (child_checks b.bits m.now vs.now c) }
{
    page_refusal(b, m, good, vs)?;
    if no_child(b, m, c) {
        return Err(Refusal::Child);
    }
    Ok(())
}
