// enable: "on 0 disables block. Else the lowest entry that is 0 becomes block, unless an entry is block already."
ghost use Rattle.std.specs.Prelude.{◌≡◌};
ghost use Rattle.block_soundness.specs.Test.{sound_test};
ghost use Rattle.block_rules.specs.Call;
ghost use Rattle.block_rules.specs.Call.{serve};
ghost use Rattle.block_rules.specs.Conditions.{all_entries};
ghost use Rattle.block_rules.specs.Refusals.{refusal};
ghost use Rattle.block_rules.specs.Effects.{enable_in};
ghost use Rattle.block_rules.specs.Calls.{enabled_at, answer, after};
ghost use Rattle.block_answers.specs.Said.{refusal_in, said};

use block_answers::{Answer, Refusal};
use block_layout::{current, entry_of, named};
use block_moves::{disable, not_in_hand, partition_refusal};

// 10: "on isn't 0, no entry is block and none is 0", in partition t.
fn all_entries(m: &[u32], t: u32, b: u32, on: u32) -> bool
    ensures { result ≡ all_entries m.now t b on }
{
    on != 0 && entry_of(m, t, b) == 0 && entry_of(m, t, 0) == 0
}

// 1 2 3 10
fn enable_refusal(m: &[u32], good: bool, p: u32, b: u32, on: u32) -> Result<(), Refusal>
    requires { good ≡ sound_test m.now }
    ensures { refusal_in result ≡ refusal m.now (serve (Call.enable p b on)) }
{
    partition_refusal(m, good, p)?;
    let t = named(m, current(m), p);
    if not_in_hand(m, t, b) {
        return Err(Refusal::Block);
    }
    if all_entries(m, t, b, on) {
        return Err(Refusal::Enabled);
    }
    Ok(())
}

// "Answers the entry that is block now, or 0". t is the partition.
fn enable_effect(m: &mut [u32], t: u32, b: u32, on: u32) -> u32
    ensures { (result ≡ enabled_at m.old t b on) × (m.new ≡ enable_in m.old t b on) }
{
    if on == 0 {
        disable(m, t, b);
        return 0;
    }
    let e = entry_of(m, t, b);
    if e != 0 {
        return e;
    }
    let f = entry_of(m, t, 0);
    common::write(m, (t as usize) + 7 + (f as usize), b);
    f
}

pub fn enable(m: &mut [u32], good: bool, p: u32, b: u32, on: u32) -> Answer
    requires { good ≡ sound_test m.old }
    ensures { (said result ≡ answer m.old (serve (Call.enable p b on)))
        × (m.new ≡ after m.old (serve (Call.enable p b on))) }
{
    enable_refusal(m, good, p, b, on)?;
    let t = named(m, current(m), p);
    Ok(enable_effect(m, t, b, on))
}
