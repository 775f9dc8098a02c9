// create_partition: "takes all; fills descriptor; list word 0 is 1; caller's shadow 1 at the first is 1".
ghost use Rattle.std.specs.Prelude.{◌≡◌};
ghost use Rattle.soundness.specs.Test.{sound_test};
ghost use Rattle.rules.specs.Refusals.{refusal};
ghost use Rattle.rules.specs.Effects.{effect};
ghost use Rattle.rules.specs.Calls.{answer, after};
ghost use Rattle.answers.specs.Said.{refusal_in, said};
ghost use Rattle.making.specs.Group.{creating};

use crate::groups::{any_lacks, any_not_in_hand, descriptor_words, twice};
use answers::{Answer, Refusal};
use pages::{IndexWidth, PhysicalPage};

// 1 3 4 7 6 13
fn create_refusal(b: IndexWidth, m: &[u32], good: bool, five: [u32; 5]) -> Result<(), Refusal>
    requires judged { good ≡ sound_test b.bits m.now }
    ensures { refusal_in result ≡ refusal b.bits m.now (creating five) }
{
    moves::page_refusal(b, m, good, &five)?;
    if twice(&five) {
        return Err(Refusal::Twice);
    }
    if any_not_in_hand(b, m, &five) {
        return Err(Refusal::Hand);
    }
    if any_lacks(b, 2, m, &five) {
        return Err(Refusal::Rights);
    }
    if 8 <= moves::depth(b, 8, m, pages::current(b, m)) {
        return Err(Refusal::Depth);
    }
    Ok(())
}

// The descriptor's words are worked out before the pages are wiped; directory and shadows stay wiped.
fn create_effect(b: IndexWidth, m: &mut [u32], five: [u32; 5])
    ensures { m.new ≡ effect b.bits m.old (creating five) }
{
    let d = pages::current(b, m);
    let own = pages::frame(b, pages::read_word(b, m, PhysicalPage(0), 4));
    let ws = descriptor_words(b, m, d, own, five);
    let p = pages::page_of(b, pages::mapping(b, m, d, five[0]));
    let l = pages::page_of(b, pages::mapping(b, m, d, five[4]));
    moves::take_all(b, m, d, &five);
    pages::fill_page(b, m, p, &ws);
    pages::write_word(b, m, l, 0, 1);
    pages::set_lent(b, m, d, five[0], 1);
}

// 1. The five are descriptor, directory, shadow 1, shadow 2 and list; good says whether the memory is sound.
pub fn create_partition(b: IndexWidth, m: &mut [u32], good: bool, five: [u32; 5]) -> Answer
    requires judged { good ≡ sound_test b.bits m.old }
    ensures { (said result ≡ answer b.bits m.old (creating five)) × (m.new ≡ after b.bits m.old (creating five)) }
{
    create_refusal(b, m, good, five)?;
    create_effect(b, m, five);
    Ok(0)
}
