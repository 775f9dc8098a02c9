// What a partition's own pages are asked: descriptor, directory and shadows, list.
ghost use Rattle.std.specs.Prelude.{◌≡◌, ◌&&◌};
ghost use Rattle.walk.specs.Finite.{from, all};
ghost use Rattle.memory.specs.Geometry.{page_words};
ghost use Rattle.soundness.specs.Test.{descriptor_test, directory_test, list_test, threes_test};

use crate::threes::Listed;
use own_pages::{Own, pairs_form, physical_address, zero_from};
use pages::{IndexWidth, PhysicalPage, most_flag, read_word};

// "twelve words, pairs of virtual address in the parent and physical address ..; then 0 and the parent's descriptor address. The rest 0." Word 12
// is the live flag.
#[tactic(auto, using(crate::proofs::Laws::Whole::descriptor_pairs), unfolding(soundness::specs::Test::descriptor_test))]
pub fn descriptor_test(b: IndexWidth, m: &[u32], d: PhysicalPage) -> bool
    ensures { result ≡ descriptor_test b.bits m.now d.0 }
{
    pairs_form(b, m, d, 0, 5)
        && read_word(b, m, d, 10) == 0
        && physical_address(b, m, read_word(b, m, d, 11))
        && read_word(b, m, d, 12) <= most_flag(b)
        && zero_from(b, m, d, 13)
}

// "word 0 first free word index, 1+6n with n threes; then pairs ..; word 63 next page, here always 0. Unused words 0." and "at most 10 threes". That is
// tested first, so that no more pairs are looked at on any memory.
#[tactic(auto, unfolding(soundness::specs::Test::list_test, own_pages::specs::Asked::pair_form))]
pub fn list_test(o: &Own) -> bool
    ensures { result ≡ list_test o.now.width.bits o.now.words.now o.now.descriptor.0 }
{
    let n = o.threes;
    if 10 < n {
        return false;
    }
    let free = o.list_at(0);
    free == 1 + 6 * n
        && pairs_form(o.width, o.words, o.list, 1, 3 * n)
        && zero_from(o.width, o.words, o.list, free)
}

// The descriptor, the list, the directory and its shadows, and that list and directory agree.
pub fn forms_test(b: IndexWidth, m: &[u32], d: PhysicalPage) -> bool
    ensures { result
        ≡ (descriptor_test b.bits m.now d.0
        && all (directory_test b.bits m.now d.0) (from (page_words b.bits) 0)
        && list_test b.bits m.now d.0
        && threes_test b.bits m.now d.0) }
{
    if !descriptor_test(b, m, d) {
        return false;
    }
    let own = Own::look_up(b, m, d);
    if !list_test(&own) {
        return false;
    }
    Listed { own }.indices_test()
}
