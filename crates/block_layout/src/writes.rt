// Writing to a slot, and wiping what stands in a block.
ghost use Rattle.std.specs.Prelude.{◌≡◌, ◌≤◌, length};
ghost use Rattle.block_memory.specs.Words;
ghost use Rattle.block_memory.specs.Partition.{put_slot};

use crate::partitions::structure;
use crate::slots::slot_in;
use common::{put_words, wipe_words};

// The words ws are written to the slot of block n, from its word f on.
#[tactic(auto, unfolding(block_memory::specs::Partition::put_slot))]
pub fn put_slot(m: &mut [u32], d: u32, n: u32, f: u32, ws: &[u32])
    requires { length ws.now ≤ 9 }
    ensures { m.new ≡ put_slot m.old d n f ws.now }
{
    let s = structure(m, d, n / 8);
    if s == 0 {
        return;
    }
    put_words(m, slot_in(s, n) + (f as usize), ws);
}

// n words are wiped, from index i on.
pub fn wipe(m: &mut [u32], i: u32, n: usize)
    requires { n ≤ 1024 }
    ensures { m.new ≡ Words.wipe m.old i n }
{
    wipe_words(m, i as usize, n);
}
