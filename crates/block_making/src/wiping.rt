// A partition is wiped: its structures, its descriptor and its table word.
ghost use Rattle.std.specs.Prelude.{◌≡◌};
ghost use Rattle.walk.specs.Finite.{image};
ghost use Rattle.block_memory.specs.Partition;
ghost use Rattle.block_memory.specs.Partition.{structure_numbers};
ghost use Rattle.block_rules.specs.Effects.{wipe_structures, wipe_partition};

use block_layout::{DESCRIPTOR_WORDS, STRUCTURE_WORDS, structure, wipe};

// Where the structures of t stand, each 0 where it isn't there: they are remembered before any word changes, in
// fixed memory, so that a wipe cannot fail.
fn structures(m: &[u32], t: u32) -> [u32; 16]
    ensures { result ≡ image (Partition.structure m.now t) structure_numbers }
{
    let mut at = [0u32; 16];
    for i in 0..16 {
        at[i] = structure(m, t, (i as u32) + 1);
    }
    at
}

fn wipe_structures(m: &mut [u32], t: u32)
    ensures { m.new ≡ wipe_structures m.old t }
{
    for s in structures(m, t) {
        if s != 0 {
            wipe(m, s, STRUCTURE_WORDS);
        }
    }
}

#[tactic(auto, unfolding(block_rules::specs::Effects::wipe_partition))]
pub fn wipe_partition(m: &mut [u32], t: u32)
    ensures { m.new ≡ wipe_partition m.old t }
{
    wipe_structures(m, t);
    wipe(m, t, DESCRIPTOR_WORDS);
    common::write(m, 8 + ((t / 32) as usize), 0);
}
