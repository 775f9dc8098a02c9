// 5: the structures of a partition d.
ghost use Rattle.std.specs.Prelude.{◌≡◌, not, ◌&&◌, ◌||◌, eqb};
ghost use Rattle.block_memory.specs.Partition;
ghost use Rattle.block_memory.specs.Partition.{root};
ghost use Rattle.block_soundness.specs.Test;
ghost use Rattle.block_soundness.specs.Test.{root_structure_test, stands_in, structures_test};

use block_layout::{
    DESCRIPTOR_WORDS, FIRST_NUMBER, MOST_STRUCTURES, child, is_root, link, number, parent,
    previous, structure, used,
};
use common::read;

// "The root's structure 1 is at D+32, has 0 in words 0 and 1, and its block 8 is there with no previous." d is the root.
#[tactic(auto, unfolding(block_soundness::specs::Test::root_structure_test))]
fn root_structure_test(m: &[u32], d: u32) -> bool
    requires { d ≡ root m.now }
    ensures { result ≡ root_structure_test m.now }
{
    let s = (d as usize) + DESCRIPTOR_WORDS;
    (structure(m, d, 1) as usize) == s
        && read(m, s) == 0
        && read(m, s + 1) == 0
        && used(m, d, FIRST_NUMBER) != 0
        && previous(m, d, FIRST_NUMBER) == 0
}

// The same of any partition d: one that is not the root passes.
fn first_structure_test(m: &[u32], d: u32) -> bool
    ensures { result ≡ (not (eqb d (root m.now)) || root_structure_test m.now) }
{
    !is_root(m, d) || root_structure_test(m, d)
}

// Block n of partition h has "use 4, link k, and child" c.
#[tactic(auto, unfolding(block_soundness::specs::Test::stands_in))]
fn stands_in(m: &[u32], h: u32, n: u32, c: u32, k: u32) -> bool
    ensures { result ≡ stands_in m.now h n c k }
{
    used(m, h, n) == 4 && link(m, h, n) == k && child(m, h, n) == c
}

// "Any other structure k has 0 or 1 in word 1, in the root 1; and the block of the number in its word 0, in d's own pool or the parent's, has use 4, link k,
// and child 0 in the one, d's number in the other." The structure stands at s.
#[tactic(auto, unfolding(block_soundness::specs::Test::structure_test))]
fn structure_test(m: &[u32], d: u32, k: u32, s: u32) -> bool
    ensures { result ≡ Test.structure_test m.now d k s }
{
    let n = read(m, s as usize);
    match read(m, (s as usize) + 1) {
        1 => stands_in(m, d, n, 0, k),
        0 => !is_root(m, d) && stands_in(m, parent(m, d), n, number(m, d), k),
        _ => false,
    }
}

// Structure k of d, if it is there and isn't the root's first.
fn structure_at_test(m: &[u32], d: u32, k: u32) -> bool
    ensures { result
        ≡ (eqb (Partition.structure m.now d k) 0
        || ((eqb d (root m.now) && eqb k 1) || Test.structure_test m.now d k (Partition.structure m.now d k))) }
{
    let s = structure(m, d, k);
    s == 0 || k == 1 && is_root(m, d) || structure_test(m, d, k, s)
}

pub fn structures_test(m: &[u32], d: u32) -> bool
    ensures { result ≡ structures_test m.now d }
{
    first_structure_test(m, d) && (1..MOST_STRUCTURES + 1).all(|k| structure_at_test(m, d, k))
}
