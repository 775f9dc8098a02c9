// The judgement of a memory, whole.
ghost use Rattle.std.specs.Prelude.{◌≡◌, ◌&&◌, ◌||◌, ◌+◌, ◌/◌, ◌^◌, ◌<◌, eqb};
ghost use Rattle.block_memory.specs.Geometry.{header_words};
ghost use Rattle.block_memory.specs.Words.{word};
ghost use Rattle.block_soundness.specs.Test;
ghost use Rattle.block_soundness.specs.Test.{sound_test};

use crate::descriptors::{descriptor_test, entries_test};
use crate::headers::header_test;
use crate::slots::slots_test;
use crate::structures::structures_test;
use block_layout::{is_partition, root_of};
use common::read;

// 3 to 9, of partition d.
#[tactic(auto, unfolding(block_soundness::specs::Test::partition_test))]
fn partition_test(m: &[u32], d: u32) -> bool
    ensures { result ≡ Test.partition_test m.now d }
{
    descriptor_test(m, d) && entries_test(m, d) && structures_test(m, d) && slots_test(m, d)
}

// 2: "Each table word 8+j is 0 or a d with d div 32 = j", and each d passes.
fn table_word_test(m: &[u32], j: usize) -> bool
    requires { j < 2 ^ 60 }
    ensures { result
        ≡ (eqb (word m.now (header_words + j)) 0
        || (eqb (word m.now (header_words + j) / 32) j && Test.partition_test m.now (word m.now (header_words + j)))) }
{
    let d = read(m, 8 + j);
    d == 0 || ((d / 32) as usize) == j && partition_test(m, d)
}

// Any lent memory.
#[tactic(auto, unfolding(block_soundness::specs::Test::sound_test))]
pub fn is_sound(m: &[u32]) -> bool
    ensures { result ≡ sound_test m.now }
{
    if !header_test(m) {
        return false;
    }
    if !is_partition(m, root_of(m.len()) as u32) {
        return false;
    }
    for j in 0..m.len() / 32 {
        if !table_word_test(m, j) {
            return false;
        }
    }
    true
}
