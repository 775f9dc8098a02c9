// The changes of a slot and of the entries that several calls make. d is the partition that has the block.
ghost use Rattle.std.specs.Prelude.{◌≡◌};
ghost use Rattle.block_rules.specs.Effects;
ghost use Rattle.block_rules.specs.Effects.{take_as, give_back, free_slot};

use block_layout::{MOST_ENABLED, SLOT_WORDS, entry, put_slot};

// "Disable n: every entry that is n becomes 0"
pub fn disable(m: &mut [u32], d: u32, n: u32)
    ensures { m.new ≡ Effects.disable m.old d n }
{
    for e in 1..=MOST_ENABLED {
        if entry(m, d, e) == n {
            common::write(m, (d as usize) + 7 + (e as usize), 0);
        }
    }
}

// "Take b as (u, c, l): disable it; its words 3, 4, 5 become u, c, l"
pub fn take_as(m: &mut [u32], d: u32, b: u32, u: u32, c: u32, l: u32)
    ensures { m.new ≡ take_as m.old d b u c l }
{
    disable(m, d, b);
    put_slot(m, d, b, 3, &[u, c, l]);
}

// "Give back b: its words 3, 4, 5 become 1, 0, 0"
pub fn give_back(m: &mut [u32], d: u32, b: u32)
    ensures { m.new ≡ give_back m.old d b }
{
    put_slot(m, d, b, 3, &[1, 0, 0]);
}

// The slot of block n is wiped.
pub fn free_slot(m: &mut [u32], d: u32, n: u32)
    ensures { m.new ≡ free_slot m.old d n }
{
    put_slot(m, d, n, 0, &[0; SLOT_WORDS]);
}
