// create: "takes it as (3, 0, 0); descriptor words 0 to 2 are the caller, block, the caller's level + 1; enters it in the table".
ghost use Rattle.std.specs.Prelude.{◌≡◌, ◌<◌};
ghost use Rattle.block_memory.specs.Partition;
ghost use Rattle.block_soundness.specs.Test.{sound_test};
ghost use Rattle.block_rules.specs.Call;
ghost use Rattle.block_rules.specs.Call.{serve};
ghost use Rattle.block_rules.specs.Refusals.{refusal};
ghost use Rattle.block_rules.specs.Effects.{create_in};
ghost use Rattle.block_rules.specs.Calls.{answer, after};
ghost use Rattle.block_answers.specs.Said.{refusal_in, said};

use block_answers::{Answer, Refusal};
use block_layout::{DESCRIPTOR_WORDS, current, level, place};
use block_moves::{block_refusal, no_room, take_as};

// 1 3 9
fn create_refusal(m: &[u32], good: bool, b: u32) -> Result<(), Refusal>
    requires { good ≡ sound_test m.now }
    ensures { refusal_in result ≡ refusal m.now (serve (Call.create b)) }
{
    block_refusal(m, good, b)?;
    if no_room(m, current(m), b, DESCRIPTOR_WORDS) {
        return Err(Refusal::Structure);
    }
    Ok(())
}

// In sound memory a level is below the number of table words, so that its sum with 1 fits.
#[tactic(auto, unfolding(block_rules::specs::Effects::create_in))]
fn create_effect(m: &mut [u32], d: u32, b: u32)
    requires { Partition.level m.old d < 4294967295 }
    ensures { m.new ≡ create_in m.old d b }
{
    let t = place(m, d, b);
    let mut words = [0u32; DESCRIPTOR_WORDS];
    words[0] = d;
    words[1] = b;
    words[2] = level(m, d) + 1;
    take_as(m, d, b, 3, 0, 0);
    common::put_words(m, t as usize, &words);
    common::write(m, 8 + ((t / 32) as usize), t);
}

pub fn create(m: &mut [u32], good: bool, b: u32) -> Answer
    requires { good ≡ sound_test m.old }
    ensures { (said result ≡ answer m.old (serve (Call.create b))) × (m.new ≡ after m.old (serve (Call.create b))) }
{
    create_refusal(m, good, b)?;
    let d = current(m);
    create_effect(m, d, b);
    Ok(0)
}
