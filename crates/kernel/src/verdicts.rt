// The verdict of a lent memory, as a call's first refusal gives it.
ghost use Rattle.std.specs.Prelude.{◌≡◌};
ghost use Rattle.rules.specs.Row.{reply};
ghost use Rattle.answers.specs.Said.{said};
ghost use Rattle.kernel.specs.Verdict.{verdict};

use answers::{Answer, Refusal};

// One function for both kernels would be as long: it would take the judge. Done with word 0 where the memory is sound, else 1 DAMAGED. No word changes.
pub fn verdict(m: &[u32]) -> Answer
    ensures { said result ≡ reply (verdict m.now) 0 }
{
    if judge::is_sound(m) {
        return Ok(0);
    }
    Err(Refusal::Damaged)
}
