// 3 and 4: the descriptor of a partition d, and its entries.
ghost use Rattle.std.specs.Prelude.{◌≡◌, not, ◌&&◌, ◌||◌, eqb, ltb, ◌+◌, ◌≤◌, length};
ghost use Rattle.walk.specs.Finite.{all};
ghost use Rattle.block_memory.specs.Geometry.{table_words};
ghost use Rattle.block_memory.specs.Partition;
ghost use Rattle.block_memory.specs.Partition.{entry_numbers, is_partition};
ghost use Rattle.block_soundness.specs.Test.{descriptor_test, entries_test};

use crate::headers::are_zero;
use block_layout::{
    MOST_ENABLED, entry, is_partition, is_root, level, number, parent, place, used,
};

// "The root's words 0 to 2 are 0."
fn top(m: &[u32], d: u32) -> bool
    ensures { result
        ≡ (eqb (Partition.parent m.now d) 0 && eqb (Partition.number m.now d) 0 && eqb (Partition.level m.now d) 0) }
{
    parent(m, d) == 0 && number(m, d) == 0 && level(m, d) == 0
}

// "Any other's parent is a partition, whose block of the number in word 1 has use 3 and has d standing in it; and its level is the parent's and 1, and below
// W/32." Levels are compared in 64 bits.
fn below_parent(m: &[u32], d: u32) -> bool
    ensures { result
        ≡ (is_partition m.now (Partition.parent m.now d)
        && eqb (Partition.used m.now (Partition.parent m.now d) (Partition.number m.now d)) 3
        && eqb (Partition.place m.now (Partition.parent m.now d) (Partition.number m.now d)) d
        && eqb (Partition.level m.now d) (Partition.level m.now (Partition.parent m.now d) + 1)
        && ltb (Partition.level m.now d) (table_words (length m.now))) }
{
    let p = parent(m, d);
    let n = number(m, d);
    let l = level(m, d);
    is_partition(m, p)
        && used(m, p, n) == 3
        && place(m, p, n) == d
        && u64::from(l) == u64::from(level(m, p)) + 1
        && (l as usize) < m.len() / 32
}

#[tactic(auto, unfolding(block_soundness::specs::Test::descriptor_test))]
pub fn descriptor_test(m: &[u32], d: u32) -> bool
    ensures { result ≡ descriptor_test m.now d }
{
    are_zero(m, d, 3, 5)
        && if is_root(m, d) {
            top(m, d)
        } else {
            below_parent(m, d)
        }
}

// Of the entries only e is n.
fn only_entry(m: &[u32], d: u32, e: u32, n: u32) -> bool
    ensures { result ≡ all (λ f. not (eqb n (Partition.entry m.now d f)) || eqb e f) entry_numbers }
{
    (1..MOST_ENABLED + 1).all(|f| n != entry(m, d, f) || e == f)
}

// "Each entry is 0 or the number of a block in d's hand. No number is in two entries."
fn entry_test(m: &[u32], d: u32, e: u32) -> bool
    ensures { result
        ≡ (eqb (Partition.entry m.now d e) 0
        || (eqb (Partition.used m.now d (Partition.entry m.now d e)) 1
        && all (λ f. not (eqb (Partition.entry m.now d e) (Partition.entry m.now d f)) || eqb e f) entry_numbers)) }
{
    let n = entry(m, d, e);
    n == 0 || used(m, d, n) == 1 && only_entry(m, d, e, n)
}

pub fn entries_test(m: &[u32], d: u32) -> bool
    ensures { result ≡ entries_test m.now d }
{
    (1..MOST_ENABLED + 1).all(|e| entry_test(m, d, e))
}
