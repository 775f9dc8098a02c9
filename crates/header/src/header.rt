// "Header and length as above".
ghost use Rattle.std.specs.Prelude.{◌≡◌, ◌&&◌, ◌+◌, ◌*◌, leb, eqb, length};
ghost use Rattle.memory.specs.Geometry.{page_words, address, threes_for, least_pages, most_pages};
ghost use Rattle.memory.specs.Words.{word};
ghost use Rattle.memory.specs.Partition;
ghost use Rattle.soundness.specs.Test.{physical, header_test};

use own_pages::{is_address, physical_address, zero_from};
use pages::{
    IndexWidth, PhysicalPage, edition_of, index, page_bytes, pages, read_word, threes_for,
};

// "N pages, 16 to 256", and the length is theirs. The most is as many as a page has bytes.
pub fn size_test(b: IndexWidth, m: &[u32]) -> bool
    ensures { result
        ≡ (eqb (length m.now) (Partition.pages b.bits m.now * page_words b.bits)
        && leb least_pages (Partition.pages b.bits m.now)
        && leb (Partition.pages b.bits m.now) (most_pages b.bits)) }
{
    let n = pages(b, m);
    m.len() == index(b, PhysicalPage(n), 0) && 16 <= n && n <= page_bytes(b)
}

// "1 T; 2 byte offset of the root descriptor; 3 byte offset of the first root page; 4 physical address of the current partition's descriptor"
pub fn offsets_test(b: IndexWidth, m: &[u32]) -> bool
    ensures { result
        ≡ (eqb (word b.bits m.now 0 1) (threes_for b.bits (Partition.pages b.bits m.now))
        && eqb (word b.bits m.now 0 2) (address b.bits 1)
        && eqb (word b.bits m.now 0 3) (address b.bits (6 + 3 * threes_for b.bits (Partition.pages b.bits m.now)))
        && physical b.bits m.now (word b.bits m.now 0 4)) }
{
    let t = threes_for(b, pages(b, m));
    let header = PhysicalPage(0);
    read_word(b, m, header, 1) == t
        && is_address(b, read_word(b, m, header, 2), PhysicalPage(1))
        && is_address(b, read_word(b, m, header, 3), PhysicalPage(6 + 3 * t))
        && physical_address(b, m, read_word(b, m, header, 4))
}

#[tactic(auto, unfolding(soundness::specs::Test::header_test))]
pub fn header_test(b: IndexWidth, m: &[u32]) -> bool
    ensures { result ≡ header_test b.bits m.now }
{
    // document 02, L4: "Page 0 word 5 is 0 for the old edition and 1 for this"
    size_test(b, m)
        && offsets_test(b, m)
        && read_word(b, m, PhysicalPage(0), 5) == edition_of(b)
        && zero_from(b, m, PhysicalPage(0), 6)
}
