// prepare: "takes it as (4, partition, k), k the lowest that the partition has no structure for; its word 0 is block, its word 1 1 for the caller itself and 0
// for a child; enters it as structure k".
ghost use Rattle.std.specs.Prelude.{◌≡◌};
ghost use Rattle.block_soundness.specs.Test.{sound_test};
ghost use Rattle.block_rules.specs.Call;
ghost use Rattle.block_rules.specs.Call.{serve};
ghost use Rattle.block_rules.specs.Refusals.{refusal};
ghost use Rattle.block_rules.specs.Effects.{prepare_for};
ghost use Rattle.block_rules.specs.Calls.{answer, after};
ghost use Rattle.block_answers.specs.Said.{refusal_in, said};

use block_answers::{Answer, Refusal};
use block_layout::{STRUCTURE_WORDS, current, free_structure, named, own, place};
use block_moves::{no_room, not_in_hand, partition_refusal, take_as};

// 1 2 3 9
fn prepare_refusal(m: &[u32], good: bool, p: u32, b: u32) -> Result<(), Refusal>
    requires { good ≡ sound_test m.now }
    ensures { refusal_in result ≡ refusal m.now (serve (Call.prepare p b)) }
{
    partition_refusal(m, good, p)?;
    let d = current(m);
    if not_in_hand(m, d, b) {
        return Err(Refusal::Block);
    }
    if no_room(m, d, b, STRUCTURE_WORDS) || free_structure(m, named(m, d, p)) == 0 {
        return Err(Refusal::Structure);
    }
    Ok(())
}

fn prepare_effect(m: &mut [u32], d: u32, p: u32, b: u32)
    ensures { m.new ≡ prepare_for m.old d p b }
{
    let t = named(m, d, p);
    let k = free_structure(m, t);
    let s = place(m, d, b);
    let mut words = [0u32; STRUCTURE_WORDS];
    words[0] = b;
    words[1] = own(p);
    take_as(m, d, b, 4, p, k);
    common::put_words(m, s as usize, &words);
    common::write(m, (t as usize) + 15 + (k as usize), s);
}

pub fn prepare(m: &mut [u32], good: bool, p: u32, b: u32) -> Answer
    requires { good ≡ sound_test m.old }
    ensures { (said result ≡ answer m.old (serve (Call.prepare p b)))
        × (m.new ≡ after m.old (serve (Call.prepare p b))) }
{
    prepare_refusal(m, good, p, b)?;
    let d = current(m);
    prepare_effect(m, d, p, b);
    Ok(0)
}
