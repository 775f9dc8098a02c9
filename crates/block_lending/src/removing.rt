// remove: "in the child, disables the block of the number in link and wipes its slot; gives back block".
ghost use Rattle.std.specs.Prelude.{◌≡◌};
ghost use Rattle.block_soundness.specs.Test.{sound_test};
ghost use Rattle.block_rules.specs.Call;
ghost use Rattle.block_rules.specs.Call.{serve};
ghost use Rattle.block_rules.specs.Conditions.{not_lent_to};
ghost use Rattle.block_rules.specs.Refusals.{refusal};
ghost use Rattle.block_rules.specs.Effects.{remove_from};
ghost use Rattle.block_rules.specs.Calls.{answer, after};
ghost use Rattle.block_answers.specs.Said.{refusal_in, said};

use block_answers::{Answer, Refusal};
use block_layout::{child, current, end, link, place, used};
use block_moves::{child_refusal, disable, free_slot, give_back, not_in_hand};

// 3, first place: "no block of the caller, or one not lent to that child"
fn not_lent_to(m: &[u32], d: u32, c: u32, b: u32) -> bool
    ensures { result ≡ not_lent_to m.now d c b }
{
    used(m, d, b) != 2 || child(m, d, b) != c
}

// 1 2 3 7 3: the last is of the first piece in the child
fn remove_refusal(m: &[u32], good: bool, c: u32, b: u32) -> Result<(), Refusal>
    requires { good ≡ sound_test m.now }
    ensures { refusal_in result ≡ refusal m.now (serve (Call.remove c b)) }
{
    child_refusal(m, good, c)?;
    let d = current(m);
    if not_lent_to(m, d, c, b) {
        return Err(Refusal::Block);
    }
    let t = place(m, d, c);
    let k = link(m, d, b);
    if end(m, t, k) != end(m, d, b) {
        return Err(Refusal::Unmerged);
    }
    if not_in_hand(m, t, k) {
        return Err(Refusal::Block);
    }
    Ok(())
}

fn remove_effect(m: &mut [u32], d: u32, c: u32, b: u32)
    ensures { m.new ≡ remove_from m.old d c b }
{
    let t = place(m, d, c);
    let n = link(m, d, b);
    disable(m, t, n);
    free_slot(m, t, n);
    give_back(m, d, b);
}

pub fn remove(m: &mut [u32], good: bool, c: u32, b: u32) -> Answer
    requires { good ≡ sound_test m.old }
    ensures { (said result ≡ answer m.old (serve (Call.remove c b))) × (m.new ≡ after m.old (serve (Call.remove c b))) }
{
    remove_refusal(m, good, c, b)?;
    let d = current(m);
    remove_effect(m, d, c, b);
    Ok(0)
}
