// load and store: the word at an address of the caller.
ghost use Rattle.std.specs.Prelude.{◌≡◌};
ghost use Rattle.soundness.specs.Test.{sound_test};
ghost use Rattle.rules.specs.Row.{first};
ghost use Rattle.rules.specs.Call;
ghost use Rattle.rules.specs.Effects;
ghost use Rattle.rules.specs.Effects.{word_at};
ghost use Rattle.rules.specs.Calls.{answer, after};
ghost use Rattle.answers.specs.Said.{refusal_in, said};
ghost use Rattle.access.specs.Access.{checks};

use answers::{Answer, Refusal};
use pages::IndexWidth;

// 1 3 15 16 6, where the right that is asked for is read or write.
fn refusal(b: IndexWidth, m: &[u32], good: bool, right: u32, a: u32) -> Result<(), Refusal>
    requires judged { good ≡ sound_test b.bits m.now }
    ensures { refusal_in result ≡ first (checks b.bits m.now right a) }
{
    if !good {
        return Err(Refusal::Damaged);
    }
    if pages::bad_address(b, 4, a) {
        return Err(Refusal::Address);
    }
    if moves::unmapped(b, m, pages::current(b, m), a) {
        return Err(Refusal::Unmapped);
    }
    if moves::inaccessible(b, m, a) {
        return Err(Refusal::Kernel);
    }
    if moves::lacks(b, right, m, a) {
        return Err(Refusal::Rights);
    }
    Ok(())
}

// Where the word of a load or a store stands.
fn word_at(b: IndexWidth, m: &[u32], a: u32) -> usize
    ensures { result ≡ word_at b.bits m.now a }
{
    let w = pages::mapping(b, m, pages::current(b, m), a);
    pages::index(b, pages::page_of(b, w), pages::place(b, a) / 4)
}

// "answers the word"
pub fn load(b: IndexWidth, m: &[u32], good: bool, a: u32) -> Answer
    requires judged { good ≡ sound_test b.bits m.now }
    ensures { (said result ≡ answer b.bits m.now (Call.load a)) × (m.now ≡ after b.bits m.now (Call.load a)) }
{
    refusal(b, m, good, 1, a)?;
    Ok(pages::read(m, word_at(b, m, a)))
}

// "writes it"
fn store_effect(b: IndexWidth, m: &mut [u32], a: u32, x: u32)
    ensures { m.new ≡ Effects.effect b.bits m.old (Call.store a x) }
{
    let i = word_at(b, m, a);
    pages::write(m, i, x);
}

pub fn store(b: IndexWidth, m: &mut [u32], good: bool, a: u32, x: u32) -> Answer
    requires judged { good ≡ sound_test b.bits m.old }
    ensures { (said result ≡ answer b.bits m.old (Call.store a x)) × (m.new ≡ after b.bits m.old (Call.store a x)) }
{
    refusal(b, m, good, 2, a)?;
    store_effect(b, m, a, x);
    Ok(0)
}
