// enter and leave: the current partition changes.
ghost use Rattle.std.specs.Prelude.{◌≡◌};
ghost use Rattle.soundness.specs.Test.{sound_test};
ghost use Rattle.rules.specs.Call;
ghost use Rattle.rules.specs.Refusals.{refusal};
ghost use Rattle.rules.specs.Effects.{effect};
ghost use Rattle.rules.specs.Calls.{answer, after};
ghost use Rattle.answers.specs.Said.{refusal_in, said};

use answers::{Answer, Refusal};
use pages::{IndexWidth, PhysicalPage};

// "current is child"
fn enter_effect(b: IndexWidth, m: &mut [u32], c: u32)
    ensures { m.new ≡ effect b.bits m.old (Call.enter c) }
{
    let w = pages::mapping(b, m, pages::current(b, m), c);
    pages::write_word(b, m, PhysicalPage(0), 4, pages::frame(b, w));
}

// 1 3 5
pub fn enter(b: IndexWidth, m: &mut [u32], good: bool, c: u32) -> Answer
    requires judged { good ≡ sound_test b.bits m.old }
    ensures { (said result ≡ answer b.bits m.old (Call.enter c)) × (m.new ≡ after b.bits m.old (Call.enter c)) }
{
    moves::child_refusal(b, m, good, &[c], c)?;
    enter_effect(b, m, c);
    Ok(0)
}

// 1 14
fn leave_refusal(b: IndexWidth, m: &[u32], good: bool) -> Result<(), Refusal>
    requires judged { good ≡ sound_test b.bits m.now }
    ensures { refusal_in result ≡ refusal b.bits m.now Call.leave }
{
    if !good {
        return Err(Refusal::Damaged);
    }
    if pages::parent(b, m, pages::current(b, m)).0 == 0 {
        return Err(Refusal::Root);
    }
    Ok(())
}

// "current is parent": the parent's descriptor address is word 11 of the descriptor
fn leave_effect(b: IndexWidth, m: &mut [u32])
    ensures { m.new ≡ effect b.bits m.old Call.leave }
{
    let w = pages::read_word(b, m, pages::current(b, m), 11);
    pages::write_word(b, m, PhysicalPage(0), 4, pages::frame(b, w));
}

pub fn leave(b: IndexWidth, m: &mut [u32], good: bool) -> Answer
    requires judged { good ≡ sound_test b.bits m.old }
    ensures { (said result ≡ answer b.bits m.old Call.leave) × (m.new ≡ after b.bits m.old Call.leave) }
{
    leave_refusal(b, m, good)?;
    leave_effect(b, m);
    Ok(0)
}
