// add: "slot of the child's free number n: block's start and end, rights, 1, 0, 0, block, 0, 0; disables block, its words 3 to 5 are 2, child, n; answers n".
ghost use Rattle.std.specs.Prelude.{◌≡◌};
ghost use Rattle.block_memory.specs.Partition;
ghost use Rattle.block_memory.specs.Partition.{free_number};
ghost use Rattle.block_soundness.specs.Test.{sound_test};
ghost use Rattle.block_rules.specs.Call;
ghost use Rattle.block_rules.specs.Call.{serve};
ghost use Rattle.block_rules.specs.Conditions.{adds_right};
ghost use Rattle.block_rules.specs.Refusals.{refusal};
ghost use Rattle.block_rules.specs.Effects.{add_to};
ghost use Rattle.block_rules.specs.Calls.{answer, after};
ghost use Rattle.block_answers.specs.Said.{refusal_in, said};

use block_answers::{Answer, Refusal};
use block_layout::{current, end, free_number, place, put_slot, rights, start};
use block_moves::{child_refusal, not_in_hand, take_as};

// 4: "rights has a bit that the block's rights have not, as every number above 7 has"
fn adds_right(m: &[u32], d: u32, b: u32, r: u32) -> bool
    ensures { result ≡ adds_right m.now d b r }
{
    r & rights(m, d, b) != r
}

// 1 2 3 4 8
fn add_refusal(m: &[u32], good: bool, c: u32, b: u32, r: u32) -> Result<(), Refusal>
    requires { good ≡ sound_test m.now }
    ensures { refusal_in result ≡ refusal m.now (serve (Call.add c b r)) }
{
    child_refusal(m, good, c)?;
    let d = current(m);
    if not_in_hand(m, d, b) {
        return Err(Refusal::Block);
    }
    if adds_right(m, d, b, r) {
        return Err(Refusal::Rights);
    }
    if free_number(m, place(m, d, c)) == 0 {
        return Err(Refusal::Slot);
    }
    Ok(())
}

fn add_effect(m: &mut [u32], d: u32, c: u32, b: u32, r: u32) -> u32
    ensures { (result ≡ free_number m.old (Partition.place m.old d c)) × (m.new ≡ add_to m.old d c b r) }
{
    let t = place(m, d, c);
    let n = free_number(m, t);
    let from = start(m, d, b);
    let to = end(m, d, b);
    put_slot(m, t, n, 0, &[from, to, r, 1, 0, 0, b, 0, 0]);
    take_as(m, d, b, 2, c, n);
    n
}

pub fn add(m: &mut [u32], good: bool, c: u32, b: u32, r: u32) -> Answer
    requires { good ≡ sound_test m.old }
    ensures { (said result ≡ answer m.old (serve (Call.add c b r)))
        × (m.new ≡ after m.old (serve (Call.add c b r))) }
{
    add_refusal(m, good, c, b, r)?;
    let d = current(m);
    Ok(add_effect(m, d, c, b, r))
}
