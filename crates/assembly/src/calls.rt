// A call's line: its record, or why it can't be read.
ghost use Rattle.std.specs.Prelude.{◌≡◌, MatchResult, true, ◌∷◌, ◌++◌, ◌+◌, ◌*◌, ◌≤◌, length};
ghost use Rattle.rules.specs.Bytes.{little_endian};
ghost use Rattle.script.specs.Lines.{Put};
ghost use Rattle.text.specs.Text.{split};
ghost use Rattle.text.specs.Numbers.{all_numbers};
ghost use Rattle.text.specs.Lines;
ghost use Rattle.text.specs.Lines.{arguments};
ghost use Rattle.text.specs.Names.{call_number};
ghost use Rattle.text.specs.Steps;
ghost use Rattle.assembly.specs.Told.{number_of};

use crate::Reason;
use record::little_endian;
use script::{argument_count, put};
use text::names::call_number;
use text::numbers::{all_numbers, number};
use text::parts::{count_words, next_word};

// A word of the script.
pub fn put_word(out: &mut [u8], at: usize, x: u32) -> usize
    requires { at + 4 ≤ length out.old }
    ensures { Put out.old out.new at result (little_endian x) }
{
    let bytes = little_endian(x);
    put(out, at, &bytes)
}

// Words that are numbers, put one behind the other.
pub fn put_numbers(out: &mut [u8], at: usize, s: &[u8]) -> usize
    requires s_value { all_numbers (split s.now) ≡ true }
    requires room { at + 4 * length (split s.now) ≤ length out.old }
    ensures { Put out.old out.new at result (arguments (split s.now)) }
{
    let mut to = at;
    let mut i = 0;
    while let Some(word) = next_word(s, i) {
        let x = number(&s[word.start..word.end]);
        to = put_word(out, to, x);
        i = word.end;
    }
    to
}

// The number of the call of a line that has the word w and then the words of s, or why it can't be read. Its record would start at byte `at`.
pub fn readable(at: usize, w: &[u8], s: &[u8]) -> Result<u32, Reason>
    requires { at ≤ 4096 }
    ensures { MatchResult result
        (λ n. (n ≡ call_number w.now) × (Lines.reason at (w.now ∷ split s.now) ≡ 0))
        (λ why. number_of why ≡ Lines.reason at (w.now ∷ split s.now)) }
{
    let Some(n) = call_number(w) else {
        return Err(Reason::UnknownCall);
    };
    let most = argument_count(n);
    let given = count_words(s);
    if given < most {
        return Err(Reason::TooFew);
    }
    if most < given {
        return Err(Reason::TooMany);
    }
    if !all_numbers(s) {
        return Err(Reason::NoNumber);
    }
    if 4096 < at + 4 + 4 * given {
        return Err(Reason::LongScript);
    }
    Ok(n)
}

// The record of call n, whose arguments are the words of s.
pub fn put_record(out: &mut [u8], at: usize, n: u32, s: &[u8]) -> usize
    requires s_value { all_numbers (split s.now) ≡ true }
    requires room { (at + 4 + 4 * length (split s.now) ≤ 4096) × (4096 ≤ length out.old) }
    ensures { Put out.old out.new at result (little_endian n ++ arguments (split s.now)) × (result ≤ 4096) }
{
    let e = put_word(out, at, n);
    put_numbers(out, e, s)
}

// What a line that can be read has: how many calls, and the byte behind its record.
#[derive(Clone, Copy)]
pub struct LineRead {
    pub calls: u32,
    pub next: usize,
}

// Reads what stands of a call's line before a comment.
pub fn read_line(s: &[u8], out: &mut [u8], at: usize) -> Result<LineRead, Reason>
    requires at_bound { at ≤ 4096 }
    requires room { 4096 ≤ length out.old }
    ensures { MatchResult result
        (λ r. Steps.LineRead (split s.now) out.old out.new at 0 r.calls r.next)
        (λ why. number_of why ≡ Lines.reason at (split s.now)) }
{
    let Some(word) = next_word(s, 0) else {
        return Ok(LineRead { calls: 0, next: at });
    };
    let n = readable(at, &s[word.start..word.end], &s[word.end..])?;
    let next = put_record(out, at, n, &s[word.end..]);
    Ok(LineRead { calls: 1, next })
}
