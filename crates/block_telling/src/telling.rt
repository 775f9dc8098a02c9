// read enabled and find: each tells a block of the named partition, or none. They change nothing.
ghost use Rattle.std.specs.Prelude.{◌≡◌};
ghost use Rattle.common.specs.Row.{ok, no};
ghost use Rattle.block_soundness.specs.Test.{sound_test};
ghost use Rattle.block_rules.specs.Call.{serve, read_enabled};
ghost use Rattle.block_rules.specs.Call;
ghost use Rattle.block_rules.specs.Calls.{is_block, six_words, no_block, answer, told, after};
ghost use Rattle.block_answers.specs.Said.{number_of, said};

use block_answers::{Refusal, TOLD_WORDS, Told};
use block_layout::{block_at, block_of, current, entry, named};
use block_moves::partition_refusal;

// "To tell a block is to answer 1, and beside it six words: number, start, end, rights, use, child." Block n of t; n is 0 where nothing is there, "the answer
// is 0, and the six words are 0".
fn tell(m: &[u32], t: u32, n: u32) -> Told
    ensures { (said result.answer ≡ ok (is_block n)) × (result.words ≡ six_words m.now t n) }
{
    let b = block_of(m, t, n);
    Told {
        answer: Ok(u32::from(n != 0)),
        words: [n, b.start, b.end, b.rights, b.used, b.child],
    }
}

// "The six words are 0; so they are beside a refusal".
fn refuse(refusal: Refusal) -> Told
    ensures { (said result.answer ≡ no (number_of refusal)) × (result.words ≡ no_block) }
{
    Told {
        answer: Err(refusal),
        words: [0; TOLD_WORDS],
    }
}

// 1 2; "tells the block in that entry"
pub fn read_enabled(m: &[u32], good: bool, p: u32, e: u32) -> Told
    requires { good ≡ sound_test m.now }
    ensures { (said result.answer ≡ answer m.now (serve (read_enabled p e)))
        × (result.words ≡ told m.now (serve (read_enabled p e)))
        × (m.now ≡ after m.now (serve (read_enabled p e))) }
{
    match partition_refusal(m, good, p) {
        Ok(()) => {
            let t = named(m, current(m), p);
            tell(m, t, entry(m, t, e))
        }
        Err(refusal) => refuse(refusal),
    }
}

// 1 2; "tells the block that has that byte"
pub fn find(m: &[u32], good: bool, p: u32, x: u32) -> Told
    requires { good ≡ sound_test m.now }
    ensures { (said result.answer ≡ answer m.now (serve (Call.find p x)))
        × (result.words ≡ told m.now (serve (Call.find p x)))
        × (m.now ≡ after m.now (serve (Call.find p x))) }
{
    match partition_refusal(m, good, p) {
        Ok(()) => {
            let t = named(m, current(m), p);
            tell(m, t, block_at(m, t, u64::from(x)))
        }
        Err(refusal) => refuse(refusal),
    }
}
