// "each record is a call number and its arguments".
ghost use Rattle.std.specs.Prelude.{◌≡◌, true, ◌≤◌, ◌<◌, length};
ghost use Rattle.rules.specs.Bytes.{word_in};
ghost use Rattle.rules.specs.Replay.{argument_count, records};
ghost use Rattle.script.specs.Walk.{is_script, whole_record, next_record, argument_at};

use crate::arguments::{argument_count, known_call};
use record::word_in;

// No "unknown call, cut record" at byte i.
pub fn whole_record(bytes: &[u8], i: usize) -> bool
    requires { i ≤ length bytes.now }
    ensures { result ≡ whole_record bytes.now i }
{
    let left = bytes.len() - i;
    if left < 4 {
        return false;
    }
    let n = word_in(bytes, i);
    if !known_call(n) {
        return false;
    }
    4 * argument_count(n) <= left - 4
}

// The byte behind the record that starts at byte i.
pub fn next_record(bytes: &[u8], i: usize) -> usize
    requires { whole_record bytes.now i ≡ true }
    ensures { (result ≡ next_record bytes.now i) × (result ≤ length bytes.now) }
{
    i + 4 + 4 * argument_count(word_in(bytes, i))
}

// Argument j of the call whose record starts at byte i.
pub fn argument(bytes: &[u8], i: usize, j: usize) -> u32
    requires i_value { whole_record bytes.now i ≡ true }
    requires counted { j < argument_count (word_in bytes.now i) }
    ensures { result ≡ argument_at bytes.now i j }
{
    word_in(bytes, i + 4 + 4 * j)
}

// From byte `first` on there are `count` records, and no "bytes left over". A record has four bytes or more, so that a count that is too large ends it soon.
pub fn all_records(bytes: &[u8], count: u32, first: usize) -> bool
    requires { first ≤ length bytes.now }
    ensures { result ≡ is_script (records count bytes.now first) }
{
    let mut i = first;
    for _ in 0..count {
        if !whole_record(bytes, i) {
            return false;
        }
        i = next_record(bytes, i);
    }
    i == bytes.len()
}
