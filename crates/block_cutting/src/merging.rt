// merge: "the lower gets the higher's end and next; that next, if any, has the lower as previous; disables the higher and wipes its slot; answers the lower's
// number".
ghost use Rattle.std.specs.Prelude.{◌≡◌};
ghost use Rattle.block_soundness.specs.Test.{sound_test};
ghost use Rattle.block_rules.specs.Call;
ghost use Rattle.block_rules.specs.Call.{serve};
ghost use Rattle.block_rules.specs.Conditions;
ghost use Rattle.block_rules.specs.Refusals.{refusal};
ghost use Rattle.block_rules.specs.Effects.{merge_two};
ghost use Rattle.block_rules.specs.Calls.{answer, after};
ghost use Rattle.block_answers.specs.Said.{refusal_in, said};

use block_answers::{Answer, Refusal};
use block_layout::{block_of, current, next, put_slot};
use block_moves::{disable, free_slot, not_in_hand};

// 6: "neither block is the other's next"
fn apart(m: &[u32], d: u32, a: u32, b: u32) -> bool
    ensures { result ≡ Conditions.apart m.now d a b }
{
    next(m, d, a) != b && next(m, d, b) != a
}

// 1 3 6
fn merge_refusal(m: &[u32], good: bool, a: u32, b: u32) -> Result<(), Refusal>
    requires { good ≡ sound_test m.now }
    ensures { refusal_in result ≡ refusal m.now (serve (Call.merge a b)) }
{
    if !good {
        return Err(Refusal::Damaged);
    }
    let d = current(m);
    if not_in_hand(m, d, a) || not_in_hand(m, d, b) {
        return Err(Refusal::Block);
    }
    if apart(m, d, a, b) {
        return Err(Refusal::Apart);
    }
    Ok(())
}

// l is the lower, h the higher.
fn merge_effect(m: &mut [u32], d: u32, l: u32, h: u32)
    ensures { m.new ≡ merge_two m.old d l h }
{
    let k = block_of(m, d, h);
    put_slot(m, d, l, 1, &[k.end]);
    put_slot(m, d, l, 8, &[k.next]);
    put_slot(m, d, k.next, 7, &[l]);
    disable(m, d, h);
    free_slot(m, d, h);
}

pub fn merge(m: &mut [u32], good: bool, a: u32, b: u32) -> Answer
    requires { good ≡ sound_test m.old }
    ensures { (said result ≡ answer m.old (serve (Call.merge a b))) × (m.new ≡ after m.old (serve (Call.merge a b))) }
{
    merge_refusal(m, good, a, b)?;
    let d = current(m);
    if next(m, d, a) == b {
        merge_effect(m, d, a, b);
        return Ok(a);
    }
    merge_effect(m, d, b, a);
    Ok(b)
}
