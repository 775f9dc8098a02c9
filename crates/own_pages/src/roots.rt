// The words of a partition's list.
ghost use Rattle.std.specs.Prelude.{◌≡◌, ◌<◌};
ghost use Rattle.memory.specs.Words.{word};
ghost use Rattle.memory.specs.Partition;

use pages::{IndexWidth, PhysicalPage, index, list, read};

// Word i of page p. Its index is worked out in 64 bits, since a list's first word may be any number.
pub fn far_word(b: IndexWidth, m: &[u32], p: PhysicalPage, i: usize) -> u32
    requires small { i < 34359738368 }
    ensures { result ≡ word b.bits m.now p.0 i }
{
    read(m, index(b, p, 0) + i)
}

// Word i of d's list.
pub fn list_word(b: IndexWidth, m: &[u32], d: PhysicalPage, i: usize) -> u32
    requires small { i < 34359738368 }
    ensures { result ≡ word b.bits m.now (Partition.list b.bits m.now d.0) i }
{
    far_word(b, m, list(b, m, d), i)
}
