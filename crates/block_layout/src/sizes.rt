// The sizes of the layout, and what follows from the number of words w.
ghost use Rattle.std.specs.Prelude.{◌≡◌, ◌<◌};
ghost use Rattle.block_memory.specs.Geometry;
ghost use Rattle.block_memory.specs.Geometry.{root_of, first_byte};

// "a descriptor, 32 words .., and up to 16 structures, 74 words .. each"; "eight slots of nine words"
pub const DESCRIPTOR_WORDS: usize = 32;

pub const STRUCTURE_WORDS: usize = 74;

pub const SLOT_WORDS: usize = 9;

pub const MOST_STRUCTURES: u32 = 16;

// "at most 8 blocks enabled for a partition"
pub const MOST_ENABLED: u32 = 8;

// "numbers run from 8 to 135", eight in a structure: the first, and the number after the last
pub const FIRST_NUMBER: u32 = 8;

pub const NUMBERS_END: u32 = 136;

// "W = 256K with K from 16 to 64"
#[tactic(auto, unfolding(block_memory::specs::Geometry::permitted))]
pub fn permitted(w: usize) -> bool
    ensures { result ≡ Geometry.permitted w }
{
    let k = w / 256;
    k * 256 == w && 16 <= k && k <= 64
}

// "index of the root's descriptor, D = 8 + W/32"
pub fn root_of(w: usize) -> usize
    ensures { (result ≡ root_of w) × (result < 576460752303423497) }
{
    8 + w / 32
}

// "first byte of the starting block, 456 + W/8"
pub fn first_byte(w: usize) -> usize
    ensures { result ≡ first_byte w }
{
    4 * (root_of(w) + DESCRIPTOR_WORDS + STRUCTURE_WORDS)
}
