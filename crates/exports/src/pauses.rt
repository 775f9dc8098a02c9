// "Pause and resume": the words of the memory, then the arguments. The target is a child's address, or 0 for the parent. They answer as document 01's
// calls do (numbered).
ghost use Rattle.std.specs.Prelude.{◌≡◌, [], ◌∷◌};
ghost use Rattle.memory.specs.Words.{overwrite};
ghost use Rattle.rules.specs.Call;
ghost use Rattle.rules.specs.Editions.{answer, after, context};
ghost use Rattle.answers.specs.Packed.{packed};
ghost use Rattle.contexts.specs.Registers.{notifying};

use answers::pack;

// "Notify is given eip, eflags and registers and saves them".
#[unsafe(no_mangle)]
pub extern "C" fn tumashqin_notify(
    words: &mut [u32],
    target: u32,
    eip: u32,
    eflags: u32,
    r0: u32,
    r1: u32,
    r2: u32,
    r3: u32,
    r4: u32,
    r5: u32,
    r6: u32,
    r7: u32,
) -> u64
    ensures { (result ≡ packed (answer words.old (notifying target eip eflags (r0 ∷ r1 ∷ r2 ∷ r3 ∷ r4 ∷ r5 ∷ r6 ∷ r7 ∷ []))))
        × (words.new ≡ after words.old (notifying target eip eflags (r0 ∷ r1 ∷ r2 ∷ r3 ∷ r4 ∷ r5 ∷ r6 ∷ r7 ∷ []))) }
{
    pack(kernel::notify(words, target, eip, eflags, [r0, r1, r2, r3, r4, r5, r6, r7]))
}

// "Dispatch saves nothing."
#[unsafe(no_mangle)]
pub extern "C" fn tumashqin_dispatch(words: &mut [u32], target: u32) -> u64
    ensures { (result ≡ packed (answer words.old (Call.dispatch target)))
        × (words.new ≡ after words.old (Call.dispatch target)) }
{
    pack(kernel::dispatch(words, target))
}

// "Resume answers the saved words": all eleven are written to the start of `out`, as many as it has room for; zeros where the call is refused.
#[unsafe(no_mangle)]
pub extern "C" fn tumashqin_resume(
    words: &mut [u32],
    target: u32,
    slot: u32,
    out: &mut [u32],
) -> u64
    ensures { (result ≡ packed (answer words.old (Call.resume target slot)))
        × (out.new ≡ overwrite out.old 0 (context words.old (Call.resume target slot)))
        × (words.new ≡ after words.old (Call.resume target slot)) }
{
    let r = kernel::resume(words, target, slot);
    pages::copy(out, &r.words);
    pack(r.answer)
}
