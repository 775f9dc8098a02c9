// Who is meant by a target: "a partition and its child, or its parent under address 0", and the refusals that the three calls begin with.
ghost use Rattle.std.specs.Prelude.{◌≡◌};
ghost use Rattle.memory.specs.Geometry.{page_of};
ghost use Rattle.soundness.specs.Test.{sound_test};
ghost use Rattle.rules.specs.Row.{first};
ghost use Rattle.rules.specs.Conditions.{target, toward};
ghost use Rattle.answers.specs.Said.{refusal_in};

use answers::Refusal;
use pages::IndexWidth;

// The word that names the partition: that of the child's mapping, or the caller's own for its parent.
pub fn target_word(b: IndexWidth, m: &[u32], t: u32) -> u32
    ensures { page_of b.bits result ≡ target b.bits m.now t }
{
    let d = pages::current(b, m);
    if t == 0 {
        return pages::read_word(b, m, d, 11);
    }
    pages::mapping(b, m, d, t)
}

// 1 24 3, and 5 or 14.
pub fn toward_refusal(b: IndexWidth, m: &[u32], good: bool, t: u32) -> Result<(), Refusal>
    requires judged { good ≡ sound_test b.bits m.now }
    ensures { refusal_in result ≡ first (toward b.bits m.now t) }
{
    if !good {
        return Err(Refusal::Damaged);
    }
    if pages::edition_of(b) != 0 {
        return Err(Refusal::Edition);
    }
    if t == 0 {
        if pages::parent(b, m, pages::current(b, m)).0 == 0 {
            return Err(Refusal::Root);
        }
        return Ok(());
    }
    if pages::bad_page(b, t) {
        return Err(Refusal::Address);
    }
    if moves::no_child(b, m, t) {
        return Err(Refusal::Child);
    }
    Ok(())
}
