// "each record is a call number and its arguments": the call of one record.
ghost use Rattle.std.specs.Prelude.{◌≡◌, true};
ghost use Rattle.rules.specs.Bytes.{word_in};
ghost use Rattle.rules.specs.Editions.{answer, after};
ghost use Rattle.answers.specs.Said.{said};
ghost use Rattle.script.specs.Walk.{whole_record, argument_at, call_at};
ghost use Rattle.transcripts.specs.Held.{held_at, five_at};

use answers::Answer;
use kernel::by_number;
use record::word_in;
use script::{argument, argument_count};
use std::array;

// Argument j of the call whose record starts at byte i, or 0 where the call has fewer.
fn argument_or_zero(bytes: &[u8], i: usize, j: usize) -> u32
    requires { whole_record bytes.now i ≡ true }
    ensures { result ≡ held_at (word_in bytes.now i) (argument_at bytes.now i) j }
{
    if j < argument_count(word_in(bytes, i)) {
        return argument(bytes, i, j);
    }
    0
}

// The arguments of the record that starts at byte i: no call has more than five.
#[tactic(auto, unfolding(crate::specs::Held::held))]
fn arguments(bytes: &[u8], i: usize) -> [u32; 5]
    requires { whole_record bytes.now i ≡ true }
    ensures { result ≡ five_at bytes.now i }
{
    array::from_fn(|j| argument_or_zero(bytes, i, j))
}

// The call of the record that starts at byte i: its number is known.
pub fn step(m: &mut [u32], bytes: &[u8], i: usize) -> Answer
    requires { whole_record bytes.now i ≡ true }
    ensures { (said result ≡ answer m.old (call_at bytes.now i))
        × (m.new ≡ after m.old (call_at bytes.now i)) }
{
    let n = word_in(bytes, i);
    let a = arguments(bytes, i);
    match by_number(m, n, a) {
        Some(answer) => answer,
        None => unreachable!(),
    }
}
