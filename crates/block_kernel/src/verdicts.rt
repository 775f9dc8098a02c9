// The verdict of a lent memory, as a call's first refusal gives it.
ghost use Rattle.std.specs.Prelude.{◌≡◌};
ghost use Rattle.common.specs.Row.{reply};
ghost use Rattle.block_answers.specs.Said.{said};
ghost use Rattle.block_kernel.specs.Verdict.{verdict};

use block_answers::{Answer, Refusal};
use block_judge::is_sound;

// Done with word 0 where the memory is sound, else 1 DAMAGED. No word changes.
pub fn verdict(m: &[u32]) -> Answer
    ensures { said result ≡ reply (verdict m.now) 0 }
{
    if is_sound(m) {
        return Ok(0);
    }
    Err(Refusal::Damaged)
}
