// The lines in turn: first the one that has N, then the calls.
ghost use Rattle.std.specs.Prelude.{◌≡◌, IfSome, [], ◌+◌, ◌≤◌, length, drop};
ghost use Rattle.std.specs.Option.{unwrap_or};
ghost use Rattle.memory.specs.Words.{overwrite};
ghost use Rattle.script.specs.Lines.{Put};
ghost use Rattle.text.specs.Text.{lines, split};
ghost use Rattle.text.specs.Lines.{pages_of};
ghost use Rattle.assembly.specs.Assembled.{header, calls, begin, assembled};
ghost use Rattle.assembly.specs.Told.{told, size, script_of};

use crate::buffers::script_buffer;
use crate::calls::{put_word, read_line};
use crate::{Assembled, Reason, Unassembled};
use common::HasNumber;
use script::put;
use text::numbers::{is_number, number};
use text::parts::{count_words, line_at, next_word};

// "exactly one word, a number from 16 to 256": N.
pub fn pages_of(s: &[u8]) -> Option<u32>
    ensures { (unwrap_or result 0 ≡ pages_of (split s.now)) × IfSome result (λ n. 16 ≤ n) }
{
    let word = next_word(s, 0)?;
    if count_words(&s[word.end..]) != 0 {
        return None;
    }
    if !is_number(&s[word.start..word.end]) {
        return None;
    }
    let n = number(&s[word.start..word.end]);
    if n < 16 {
        return None;
    }
    if n > 256 {
        return None;
    }
    Some(n)
}

// "N, count of calls, offset 12"
pub fn put_header(out: &mut [u8], n: u32, count: u32) -> usize
    requires { 12 ≤ length out.old }
    ensures { Put out.old out.new 0 result (header n count) }
{
    let a = put_word(out, 0, n);
    let b = put_word(out, a, count);
    put_word(out, b, 12)
}

// The lines from byte `first` on, which is line k's: the records stand behind the room for a header, which is put last.
pub fn read_calls(text: &[u8], first: usize, line: u32, n: u32, out: &mut [u8]) -> Assembled
    requires text_len_bound { (length text.now ≤ 65536) × (first ≤ length text.now + 1) × (line ≤ first + 1) }
    requires room { 4096 ≤ length out.old }
    ensures { (told result out.new ≡ calls n line 0 [] (lines (drop first text.now))) × (size result ≤ 4096) }
{
    let mut i = first;
    let mut k = line;
    let mut count = 0;
    let mut at = 12;
    // The next line begins where this one ends: no range has these places.
    while i < text.len() {
        let line = line_at(text, i);
        match read_line(&text[i..line.read_end], out, at) {
            Err(why) => return Err(Unassembled::Unread(k, why.number())),
            Ok(read) => {
                at = read.next;
                count += read.calls;
            }
        }
        k += 1;
        i = line.end + 1;
    }
    put_header(out, n, count);
    Ok(at)
}

// The lines up to the one that has N, and then the calls.
pub fn read_text(text: &[u8], out: &mut [u8]) -> Assembled
    requires text_len_bound { length text.now ≤ 65536 }
    requires room { 4096 ≤ length out.old }
    ensures { (told result out.new ≡ begin 1 (lines text.now)) × (size result ≤ 4096) }
{
    let mut i = 0;
    let mut k = 1;
    // As in read_calls.
    while i < text.len() {
        let line = line_at(text, i);
        if count_words(&text[i..line.read_end]) != 0 {
            let Some(n) = pages_of(&text[i..line.read_end]) else {
                return Err(Unassembled::Unread(k, Reason::NoPages.number()));
            };
            return read_calls(text, line.end + 1, k + 1, n, out);
        }
        k += 1;
        i = line.end + 1;
    }
    Err(Unassembled::Unread(k, Reason::NoLine.number()))
}

// How many bytes the script has, or 0 where there is none: so says `size`, and so much of a buffer is written.
pub fn script_length(a: Assembled) -> usize
    ensures { result ≡ size a }
{
    a.unwrap_or(0)
}

// The script stands at the start of `out`; where there is none, `out` is as it was.
pub fn assemble(text: &[u8], out: &mut [u8; 4096]) -> Assembled
    ensures { (told result out.new ≡ assembled text.now)
        × (out.new ≡ overwrite out.old 0 (script_of (assembled text.now)))
        × (size result ≤ length out.new) }
{
    if text.len() > 65536 {
        return Err(Unassembled::TooLong);
    }
    let mut bytes = script_buffer();
    let n = read_text(text, &mut bytes)?;
    put(out, 0, &bytes[..n]);
    Ok(n)
}
