// notify: "is given eip, eflags and registers and saves them with the caller's old flag and valid 1 in the caller's slot 2 (to a child) or 3 (to its parent)".
ghost use Rattle.std.specs.Prelude.{◌≡◌, cond, [], ◌∷◌, ◌++◌, ◌≤◌, eqb};
ghost use Rattle.memory.specs.Partition.{current};
ghost use Rattle.memory.specs.Contexts.{most_slot, to_child_slot, to_parent_slot, no_slots};
ghost use Rattle.soundness.specs.Test.{sound_test};
ghost use Rattle.rules.specs.Refusal.{SLOT-PAGE};
ghost use Rattle.rules.specs.Row.{◌when◌, first};
ghost use Rattle.rules.specs.Conditions.{toward};
ghost use Rattle.rules.specs.Effects;
ghost use Rattle.rules.specs.Effects.{effect};
ghost use Rattle.rules.specs.Calls.{answer, after};
ghost use Rattle.answers.specs.Said.{refusal_in, said};
ghost use Rattle.contexts.specs.Registers.{registers_of, notifying};

use answers::{Answer, Refusal};
use contexts::slot_pages::{no_slots, slot_page};
use contexts::slots::{Slot, TO_CHILD_SLOT, TO_PARENT_SLOT};
use contexts::switching::{caller_flag, switch_to};
use contexts::targets::{target_word, toward_refusal};
use pages::{IndexWidth, PhysicalPage};

// 1 24 3, 5 or 14, and 20 of the caller.
fn notify_refusal(b: IndexWidth, m: &[u32], good: bool, t: u32) -> Result<(), Refusal>
    requires judged { good ≡ sound_test b.bits m.now }
    ensures { refusal_in result ≡ first (toward b.bits m.now t ++ (SLOT-PAGE when no_slots b.bits m.now (current b.bits m.now) ∷ [])) }
{
    toward_refusal(b, m, good, t)?;
    if no_slots(b, m, pages::current(b, m)) {
        return Err(Refusal::SlotPage);
    }
    Ok(())
}

// The caller's slot, by the target t.
fn slot_toward(t: u32) -> u32
    ensures { (result ≡ cond (eqb t 0) to_parent_slot to_child_slot) × (result ≤ most_slot) }
{
    if t == 0 {
        TO_PARENT_SLOT
    } else {
        TO_CHILD_SLOT
    }
}

// "saves them with the caller's old flag and valid 1": the words in the order of a slot.
fn save(b: IndexWidth, m: &mut [u32], d: PhysicalPage, t: u32, eip: u32, eflags: u32, rs: [u32; 8])
    ensures { m.new ≡ Effects.save b.bits m.old d.0 t eip eflags (registers_of rs) }
{
    let flag = pages::flag(b, m, d);
    let slot = Slot {
        page: slot_page(b, m, d),
        number: slot_toward(t),
    };
    let ws = [
        eip, flag, eflags, rs[0], rs[1], rs[2], rs[3], rs[4], rs[5], rs[6], rs[7], 1,
    ];
    slot.save(b, m, &ws);
}

fn notify_effect(b: IndexWidth, m: &mut [u32], t: u32, eip: u32, eflags: u32, rs: [u32; 8])
    ensures { m.new ≡ effect b.bits m.old (notifying t eip eflags rs) }
{
    let d = pages::current(b, m);
    let w = target_word(b, m, t);
    let x = caller_flag(b, m, d, t);
    save(b, m, d, t, eip, eflags, rs);
    switch_to(b, m, d, w, x, 1);
}

// The target t becomes current, with flag 1; rs are the eight registers. eip, eflags and rs are no struct, as `kernel::notify` takes them one by one.
pub fn notify(
    b: IndexWidth,
    m: &mut [u32],
    good: bool,
    t: u32,
    eip: u32,
    eflags: u32,
    rs: [u32; 8],
) -> Answer
    requires judged { good ≡ sound_test b.bits m.old }
    ensures { (said result ≡ answer b.bits m.old (notifying t eip eflags rs))
        × (m.new ≡ after b.bits m.old (notifying t eip eflags rs)) }
{
    notify_refusal(b, m, good, t)?;
    notify_effect(b, m, t, eip, eflags, rs);
    Ok(0)
}
