// The searches: each goes from the lowest number up. Those for a block pass over the structures that aren't there. Where nothing is found the answer is 0 and
// no Option: the definitions of block_memory (free_number, block_at and the others) answer that 0, and slots and descriptors store it.
ghost use Rattle.std.specs.Prelude.{◌≡◌, Bool, not, ◌&&◌, ℕ, ◌+◌, ◌*◌, ◌/◌, ◌≤◌, eqb};
ghost use Rattle.walk.specs.Finite.{from, all};
ghost use Rattle.block_memory.specs.Partition;
ghost use Rattle.block_memory.specs.Partition.{numbers, lowest, has_byte, block_at, free_number, free_structure, empty_structure, entry_of};

use crate::partitions::{entry, structure};
use crate::sizes::{MOST_ENABLED, MOST_STRUCTURES};
use crate::slots::{end, start, used};

// Block n of d has the byte x.
#[tactic(auto, unfolding(block_memory::specs::Partition::has_byte))]
fn has_byte(m: &[u32], d: u32, x: u64, n: u32) -> bool
    ensures { result ≡ has_byte m.now d x n }
{
    used(m, d, n) != 0 && u64::from(start(m, d, n)) <= x && x < u64::from(end(m, d, n))
}

// The lowest number of a block, in a structure that is there, that passes, or 0.
fn lowest_in<F: Fn(u32) -> bool>(m: &[u32], d: u32, passes: F) -> u32
    requires { F.IsAlwaysCallable passes }
    ensures { (f : ℕ → Bool) → ((n : ℕ) (r : Bool) → F.post passes n r → r ≡ f n)
        → result ≡ lowest (λ n. not (eqb (Partition.structure m.now d (n / 8)) 0) && f n) numbers }
{
    for k in 1..=MOST_STRUCTURES {
        if structure(m, d, k) != 0 {
            for n in 8 * k..8 * k + 8 {
                if passes(n) {
                    return n;
                }
            }
        }
    }
    0
}

// The block of d that has the byte x.
pub fn block_at(m: &[u32], d: u32, x: u64) -> u32
    ensures { result ≡ block_at m.now d x }
{
    lowest_in(m, d, |n| has_byte(m, d, x, n))
}

// "Free number: the lowest number of a free slot"
pub fn free_number(m: &[u32], d: u32) -> u32
    ensures { result ≡ free_number m.now d }
{
    lowest_in(m, d, |n| used(m, d, n) == 0)
}

// "the lowest that the partition has no structure for"
pub fn free_structure(m: &[u32], d: u32) -> u32
    ensures { (result ≡ free_structure m.now d) × (result ≤ 16) }
{
    (1..MOST_STRUCTURES + 1)
        .find(|k| structure(m, d, *k) == 0)
        .unwrap_or(0)
}

// The eight slots of structure k are free.
fn all_free(m: &[u32], d: u32, k: u32) -> bool
    requires { k ≤ 16 }
    ensures { result ≡ all (λ i. eqb (Partition.used m.now d (8 * k + i)) 0) (from 8 0) }
{
    (0..8).all(|i| used(m, d, 8 * k + i) == 0)
}

// Structure k is there, and its eight slots are free.
fn is_empty(m: &[u32], d: u32, k: u32) -> bool
    requires { k ≤ 16 }
    ensures { result
        ≡ (not (eqb (Partition.structure m.now d k) 0) && all (λ i. eqb (Partition.used m.now d (8 * k + i)) 0) (from 8 0)) }
{
    structure(m, d, k) != 0 && all_free(m, d, k)
}

// "the structure of lowest k whose eight slots are free"
pub fn empty_structure(m: &[u32], d: u32) -> u32
    ensures { (result ≡ empty_structure m.now d) × (result ≤ 16) }
{
    (1..MOST_STRUCTURES + 1)
        .find(|k| is_empty(m, d, *k))
        .unwrap_or(0)
}

// The entry that is n; of 0, the lowest entry that is 0.
pub fn entry_of(m: &[u32], d: u32, n: u32) -> u32
    ensures { (result ≡ entry_of m.now d n) × (result ≤ 8) }
{
    (1..MOST_ENABLED + 1)
        .find(|e| entry(m, d, *e) == n)
        .unwrap_or(0)
}
