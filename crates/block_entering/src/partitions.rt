// enter and leave: the current partition changes, word 3 of the header.
ghost use Rattle.std.specs.Prelude.{◌≡◌};
ghost use Rattle.block_soundness.specs.Test.{sound_test};
ghost use Rattle.block_rules.specs.Call;
ghost use Rattle.block_rules.specs.Call.{serve};
ghost use Rattle.block_rules.specs.Refusals.{refusal};
ghost use Rattle.block_rules.specs.Calls.{answer, after};
ghost use Rattle.block_answers.specs.Said.{refusal_in, said};

use block_answers::{Answer, Refusal};
use block_layout::{current, is_root, parent, place};
use block_moves::child_refusal;

// 1 2; "current is child"
pub fn enter(m: &mut [u32], good: bool, c: u32) -> Answer
    requires { good ≡ sound_test m.old }
    ensures { (said result ≡ answer m.old (serve (Call.enter c))) × (m.new ≡ after m.old (serve (Call.enter c))) }
{
    child_refusal(m, good, c)?;
    let t = place(m, current(m), c);
    common::write(m, 3, t);
    Ok(0)
}

// 1 12
fn leave_refusal(m: &[u32], good: bool) -> Result<(), Refusal>
    requires { good ≡ sound_test m.now }
    ensures { refusal_in result ≡ refusal m.now (serve Call.leave) }
{
    if !good {
        return Err(Refusal::Damaged);
    }
    if is_root(m, current(m)) {
        return Err(Refusal::Root);
    }
    Ok(())
}

// "current is parent"
pub fn leave(m: &mut [u32], good: bool) -> Answer
    requires { good ≡ sound_test m.old }
    ensures { (said result ≡ answer m.old (serve Call.leave)) × (m.new ≡ after m.old (serve Call.leave)) }
{
    leave_refusal(m, good)?;
    let t = parent(m, current(m));
    common::write(m, 3, t);
    Ok(0)
}
