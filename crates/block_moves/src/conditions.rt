// The conditions of "When the kernel says no" that several calls share, and how their rows of refusals begin. The partition d is the one whose pool is asked.
ghost use Rattle.std.specs.Prelude.{◌≡◌, [], ◌∷◌, ◌≤◌};
ghost use Rattle.common.specs.Row.{◌when◌};
ghost use Rattle.block_memory.specs.Partition;
ghost use Rattle.block_soundness.specs.Test.{sound_test};
ghost use Rattle.block_rules.specs.Refusal.{DAMAGED, CHILD, BLOCK};
ghost use Rattle.block_rules.specs.Row.{first};
ghost use Rattle.block_rules.specs.Conditions.{damaged, no_child, no_partition, not_in_hand, no_room};
ghost use Rattle.block_answers.specs.Said.{refusal_in};

use block_answers::Refusal;
use block_layout::{current, end, place, used};

// 3: "the number names no block of the pool, or one that isn't in hand"
pub fn not_in_hand(m: &[u32], d: u32, n: u32) -> bool
    ensures { result ≡ not_in_hand m.now d n }
{
    used(m, d, n) != 1
}

// 9: "no room in the block" for so many words. It is worked out in 64 bits.
pub fn no_room(m: &[u32], d: u32, n: u32, words: usize) -> bool
    requires { words ≤ 1024 }
    ensures { result ≡ no_room m.now d n words }
{
    (end(m, d, n) as usize) < 4 * ((place(m, d, n) as usize) + words)
}

// 1 2: how the rows of calls with a child begin; good is what the judge says of m. A struct with that answer would still need a clause that says of which
// memory it is.
pub fn child_refusal(m: &[u32], good: bool, c: u32) -> Result<(), Refusal>
    requires { good ≡ sound_test m.now }
    ensures { refusal_in result
        ≡ first (DAMAGED when damaged m.now ∷ CHILD when no_child m.now (Partition.current m.now) c ∷ []) }
{
    if !good {
        return Err(Refusal::Damaged);
    }
    if used(m, current(m), c) != 3 {
        return Err(Refusal::Child);
    }
    Ok(())
}

// 1 2: the same for a partition, which is the caller itself under 0.
pub fn partition_refusal(m: &[u32], good: bool, p: u32) -> Result<(), Refusal>
    requires { good ≡ sound_test m.now }
    ensures { refusal_in result
        ≡ first (DAMAGED when damaged m.now ∷ CHILD when no_partition m.now (Partition.current m.now) p ∷ []) }
{
    if good && p == 0 {
        return Ok(());
    }
    child_refusal(m, good, p)
}

// 1 3: how the rows of calls with a block of the caller begin.
pub fn block_refusal(m: &[u32], good: bool, n: u32) -> Result<(), Refusal>
    requires { good ≡ sound_test m.now }
    ensures { refusal_in result
        ≡ first (DAMAGED when damaged m.now ∷ BLOCK when not_in_hand m.now (Partition.current m.now) n ∷ []) }
{
    if !good {
        return Err(Refusal::Damaged);
    }
    if not_in_hand(m, current(m), n) {
        return Err(Refusal::Block);
    }
    Ok(())
}
