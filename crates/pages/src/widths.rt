// The geometry widths by edition, and what follows from one: the sizes of a page.
ghost use Rattle.std.specs.Prelude.{◌≡◌, ◌≤◌, ◌<◌};
ghost use Rattle.memory.specs.Geometry.{width_of, edition_of, most_flag, page_words, page_bytes};
ghost use Rattle.memory.specs.Edition;
ghost use Rattle.pages.specs.Width.{Width};

use common::read;

// How many bits an index into a page has: for this many the code is proved. A lookup takes the width beside the words and not in a struct with them: an effect
// has the words to write, so that it would make the struct anew at each lookup, which is no plainer.
#[derive(Clone, Copy)]
pub struct IndexWidth {
    pub bits: u32,
    pub ghost known: { Width bits },
}

// "a second holds geometry widths": the index width of each edition, from which every other width follows.
const WIDTHS: [u32; 2] = [6, 10];

// The width of an edition.
pub fn width_of(edition: u32) -> IndexWidth
    requires { edition < 2 }
    ensures { result.bits ≡ width_of edition }
{
    IndexWidth {
        bits: WIDTHS[edition as usize],
    }
}

// The edition of a width, as the header names it.
pub fn edition_of(b: IndexWidth) -> u32
    ensures { (result ≡ edition_of b.bits) × (result < 2) }
{
    if b.bits == WIDTHS[0] { 0 } else { 1 }
}

// "The live vcli flag is .. 0 or 1", and 0 on the other edition: the most that it can be.
pub fn most_flag(b: IndexWidth) -> u32
    ensures { result ≡ most_flag b.bits }
{
    1 - edition_of(b)
}

// The width by which a memory is read: that of the edition that its header names, or of the old one where it names none.
pub fn width(m: &[u32]) -> IndexWidth
    ensures { result.bits ≡ Edition.width m.now }
{
    let named = read(m, 5);
    if named < 2 {
        return width_of(named);
    }
    width_of(0)
}

// Words to a page.
pub fn page_words(b: IndexWidth) -> u32
    ensures { (result ≡ page_words b.bits) × (result ≤ 1024) }
{
    1 << b.bits
}

// Bytes to a page.
pub fn page_bytes(b: IndexWidth) -> u32
    ensures { (result ≡ page_bytes b.bits) × (256 ≤ result) × (result ≤ 4096) }
{
    4 * page_words(b)
}
