// resume: "answers the saved words, clears valid and sets the target's flag to bit 0 of the saved pipflags".
ghost use Rattle.std.specs.Prelude.{◌≡◌, not, ◌&&◌, ◌≤◌, eqb};
ghost use Rattle.std.proofs.Math.Option.{some};
ghost use Rattle.memory.specs.Contexts;
ghost use Rattle.memory.specs.Contexts.{most_slot};
ghost use Rattle.soundness.specs.Test.{sound_test};
ghost use Rattle.rules.specs.Call;
ghost use Rattle.rules.specs.Conditions.{bad_slot};
ghost use Rattle.rules.specs.Refusals.{refusal};
ghost use Rattle.rules.specs.Effects.{effect};
ghost use Rattle.rules.specs.Calls.{answer, after, resumed, context};
ghost use Rattle.answers.specs.Said.{refusal_in, said};

use answers::{Answer, Refusal};
use contexts::slot_pages::{no_slots, slot_page};
use contexts::slots::{MOST_SLOT, PIPFLAGS_PLACE, SAVED_WORDS, Slot, TO_CHILD_SLOT};
use contexts::switching::switch_to;
use contexts::targets::{target_word, toward_refusal};
use pages::{IndexWidth, PhysicalPage};

// The eleven words stand beside the answer; beside a refusal they are zeros. They are in no Ok, since `tumashqin_resume` writes the zeros too (`context`).
#[derive(Clone, Copy)]
pub struct Resumed {
    pub answer: Answer,
    pub words: [u32; SAVED_WORDS],
}

// 21: "a slot number above 3 or not allowed": "a child only slot 2 of its parent".
fn bad_slot(t: u32, s: u32) -> bool
    ensures { result ≡ bad_slot t s }
{
    MOST_SLOT < s || (t == 0 && s != TO_CHILD_SLOT)
}

// 22: "a child's slot not valid", the target t being partition d.
fn empty_slot(b: IndexWidth, m: &[u32], t: u32, d: PhysicalPage, s: u32) -> bool
    requires small { s ≤ most_slot }
    ensures { result ≡ (not (eqb t 0) && not (Contexts.valid b.bits m.now d.0 s)) }
{
    if t == 0 {
        return false;
    }
    let slot = Slot {
        page: slot_page(b, m, d),
        number: s,
    };
    !slot.valid(b, m)
}

// 1 24 3, 5 or 14, 21, 20 of the target, 22.
fn resume_refusal(b: IndexWidth, m: &[u32], good: bool, t: u32, s: u32) -> Result<(), Refusal>
    requires judged { good ≡ sound_test b.bits m.now }
    ensures { refusal_in result ≡ refusal b.bits m.now (Call.resume t s) }
{
    toward_refusal(b, m, good, t)?;
    if bad_slot(t, s) {
        return Err(Refusal::Slot);
    }
    let k = pages::page_of(b, target_word(b, m, t));
    if no_slots(b, m, k) {
        return Err(Refusal::SlotPage);
    }
    if empty_slot(b, m, t, k, s) {
        return Err(Refusal::EmptySlot);
    }
    Ok(())
}

// The answer is the eleven words. Where the parent's slot "isn't valid the root becomes current with flag 1, .. and the answer is eleven zeros".
fn resume_effect(b: IndexWidth, m: &mut [u32], t: u32, s: u32) -> [u32; SAVED_WORDS]
    requires small { s ≤ most_slot }
    ensures { (result ≡ resumed b.bits m.old 0 (some (t, s))) × (m.new ≡ effect b.bits m.old (Call.resume t s)) }
{
    let d = pages::current(b, m);
    let w = target_word(b, m, t);
    let slot = Slot {
        page: slot_page(b, m, pages::page_of(b, w)),
        number: s,
    };
    if slot.valid(b, m) {
        let words = slot.saved(b, m);
        slot.clear_valid(b, m);
        switch_to(b, m, d, w, 0, words[PIPFLAGS_PLACE] % 2);
        return words;
    }
    switch_to(b, m, d, pages::address(b, PhysicalPage(1)), 0, 1);
    [0; SAVED_WORDS]
}

// The target t becomes current; s is the number of its slot.
pub fn resume(b: IndexWidth, m: &mut [u32], good: bool, t: u32, s: u32) -> Resumed
    requires judged { good ≡ sound_test b.bits m.old }
    ensures { (said result.answer ≡ answer b.bits m.old (Call.resume t s))
        × (result.words ≡ context b.bits m.old (Call.resume t s))
        × (m.new ≡ after b.bits m.old (Call.resume t s)) }
{
    if let Err(refusal) = resume_refusal(b, m, good, t, s) {
        return Resumed {
            answer: Err(refusal),
            words: [0; SAVED_WORDS],
        };
    }
    let words = resume_effect(b, m, t, s);
    Resumed {
        answer: Ok(0),
        words: words,
    }
}
