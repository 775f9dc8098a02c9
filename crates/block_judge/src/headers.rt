// 1: "The length is permitted. The header is as above, and its word 3 is a partition."
ghost use Rattle.std.specs.Prelude.{◌≡◌, ◌+◌, ◌<◌, eqb};
ghost use Rattle.walk.specs.Finite.{from, all};
ghost use Rattle.block_memory.specs.Words.{word};
ghost use Rattle.block_soundness.specs.Test.{header_test};

use block_layout::{current, first_byte, is_partition, permitted, root_of};
use common::read;

// The n words from word i of what stands at d on are 0.
pub fn are_zero(m: &[u32], d: u32, i: usize, n: usize) -> bool
    requires { (i < 1024) × (n < 1024) }
    ensures { result ≡ all (λ j. eqb (word m.now (d + j)) 0) (from n i) }
{
    (i..i + n).all(|j| read(m, (d as usize) + j) == 0)
}

#[tactic(auto, unfolding(block_soundness::specs::Test::header_test))]
pub fn header_test(m: &[u32]) -> bool
    ensures { result ≡ header_test m.now }
{
    let w = m.len();
    permitted(w)
        && (read(m, 0) as usize) == w
        && (read(m, 1) as usize) == root_of(w)
        && (read(m, 2) as usize) == first_byte(w)
        && is_partition(m, current(m))
        && are_zero(m, 0, 4, 4)
}
