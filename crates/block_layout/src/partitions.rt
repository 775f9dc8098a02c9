// The header, the table and a partition's descriptor.
ghost use Rattle.std.specs.Prelude.{◌≡◌, cond, ◌&&◌, ◌+◌, ◌≤◌, leb, eqb};
ghost use Rattle.block_memory.specs.Words.{word};
ghost use Rattle.block_memory.specs.Partition;
ghost use Rattle.block_memory.specs.Partition.{root, is_partition};

use crate::sizes::{MOST_ENABLED, MOST_STRUCTURES, root_of};
use common::read;

// "3 index of the current partition's descriptor"
pub fn current(m: &[u32]) -> u32
    ensures { result ≡ Partition.current m.now }
{
    read(m, 3)
}

pub fn is_root(m: &[u32], d: u32) -> bool
    ensures { result ≡ eqb d (root m.now) }
{
    (d as usize) == root_of(m.len())
}

// "d is a partition means that 0 < d < W and word 8 + d div 32 is d"
#[tactic(auto, unfolding(block_memory::specs::Partition::is_partition))]
pub fn is_partition(m: &[u32], d: u32) -> bool
    ensures { result ≡ is_partition m.now d }
{
    0 < d && (d as usize) < m.len() && read(m, 8 + ((d / 32) as usize)) == d
}

// "0 index of the parent's descriptor"
pub fn parent(m: &[u32], d: u32) -> u32
    ensures { result ≡ Partition.parent m.now d }
{
    read(m, d as usize)
}

// "1 number of the block, in the parent's pool, that it stands in"
pub fn number(m: &[u32], d: u32) -> u32
    ensures { result ≡ Partition.number m.now d }
{
    read(m, (d as usize) + 1)
}

// "2 level, how far it is below the root"
pub fn level(m: &[u32], d: u32) -> u32
    ensures { result ≡ Partition.level m.now d }
{
    read(m, (d as usize) + 2)
}

// Word FROM + k of a descriptor, for k from 1 to MOST; 0 for any other k.
fn listed<const FROM: usize, const MOST: u32>(m: &[u32], d: u32, k: u32) -> u32
    requires { FROM ≤ 15 }
    ensures { result ≡ cond (leb 1 k && leb k MOST) (word m.now (d + FROM + k)) 0 }
{
    if k == 0 || MOST < k {
        return 0;
    }
    read(m, (d as usize) + FROM + (k as usize))
}

// "7+e, for entry e from 1 to 8, 0 or the number of an enabled block"
pub fn entry(m: &[u32], d: u32, e: u32) -> u32
    ensures { result ≡ Partition.entry m.now d e }
{
    listed::<7, MOST_ENABLED>(m, d, e)
}

// "15+k, for k from 1 to 16, 0 or the index of structure k"
pub fn structure(m: &[u32], d: u32, k: u32) -> u32
    ensures { result ≡ Partition.structure m.now d k }
{
    listed::<15, MOST_STRUCTURES>(m, d, k)
}
