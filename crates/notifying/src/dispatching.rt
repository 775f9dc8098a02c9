// dispatch: "saves nothing".
ghost use Rattle.std.specs.Prelude.{◌≡◌};
ghost use Rattle.soundness.specs.Test.{sound_test};
ghost use Rattle.rules.specs.Call;
ghost use Rattle.rules.specs.Effects.{effect};
ghost use Rattle.rules.specs.Calls.{answer, after};
ghost use Rattle.answers.specs.Said.{said};

use answers::Answer;
use contexts::switching::{caller_flag, switch_to};
use contexts::targets::{target_word, toward_refusal};
use pages::IndexWidth;

fn dispatch_effect(b: IndexWidth, m: &mut [u32], t: u32)
    ensures { m.new ≡ effect b.bits m.old (Call.dispatch t) }
{
    let d = pages::current(b, m);
    let w = target_word(b, m, t);
    let x = caller_flag(b, m, d, t);
    switch_to(b, m, d, w, x, 1);
}

// The target t becomes current, with flag 1.
pub fn dispatch(b: IndexWidth, m: &mut [u32], good: bool, t: u32) -> Answer
    requires judged { good ≡ sound_test b.bits m.old }
    ensures { (said result ≡ answer b.bits m.old (Call.dispatch t)) × (m.new ≡ after b.bits m.old (Call.dispatch t)) }
{
    toward_refusal(b, m, good, t)?;
    dispatch_effect(b, m, t);
    Ok(0)
}
