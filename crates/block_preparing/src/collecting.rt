// collect: "wipes the structure of lowest k whose eight slots are free, and descriptor word 15+k; gives back its block in the pool that has it; answers the
// block's number if that pool is the caller's, else 0".
ghost use Rattle.std.specs.Prelude.{◌≡◌};
ghost use Rattle.block_soundness.specs.Test.{sound_test};
ghost use Rattle.block_rules.specs.Call;
ghost use Rattle.block_rules.specs.Call.{serve};
ghost use Rattle.block_rules.specs.Refusals.{refusal};
ghost use Rattle.block_rules.specs.Effects.{collect_from};
ghost use Rattle.block_rules.specs.Calls.{collected, answer, after};
ghost use Rattle.block_answers.specs.Said.{refusal_in, said};

use block_answers::{Answer, Refusal};
use block_layout::{STRUCTURE_WORDS, current, empty_structure, holder, named, structure, wipe};
use block_moves::{give_back, partition_refusal};

// 1 2 11
fn collect_refusal(m: &[u32], good: bool, p: u32) -> Result<(), Refusal>
    requires { good ≡ sound_test m.now }
    ensures { refusal_in result ≡ refusal m.now (serve (Call.collect p)) }
{
    partition_refusal(m, good, p)?;
    if empty_structure(m, named(m, current(m), p)) == 0 {
        return Err(Refusal::Empty);
    }
    Ok(())
}

// d is the caller, t the partition.
fn collect_effect(m: &mut [u32], d: u32, t: u32) -> u32
    ensures { (result ≡ collected m.old d t) × (m.new ≡ collect_from m.old t) }
{
    let k = empty_structure(m, t);
    let s = structure(m, t, k);
    let h = holder(m, t, s);
    let b = common::read(m, s as usize);
    wipe(m, s, STRUCTURE_WORDS);
    common::write(m, (t as usize) + 15 + (k as usize), 0);
    give_back(m, h, b);
    if h == d { b } else { 0 }
}

pub fn collect(m: &mut [u32], good: bool, p: u32) -> Answer
    requires { good ≡ sound_test m.old }
    ensures { (said result ≡ answer m.old (serve (Call.collect p))) × (m.new ≡ after m.old (serve (Call.collect p))) }
{
    collect_refusal(m, good, p)?;
    let d = current(m);
    let t = named(m, d, p);
    Ok(collect_effect(m, d, t))
}
