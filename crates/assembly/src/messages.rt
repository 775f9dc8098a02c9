// What is said of a text that can't be read.
ghost use Rattle.std.specs.Prelude.{◌≡◌, [], ◌≤◌, length};
ghost use Rattle.script.specs.Lines.{Put};
ghost use Rattle.assembly.specs.Assembled.{unread, too_long};
ghost use Rattle.assembly.specs.Messages.{because, message};
ghost use Rattle.assembly.specs.Told.{told};

use crate::{Assembled, Unassembled};
use script::{put, put_decimal};

// The text of the reason with that number.
#[tactic(auto, unfolding(crate::specs::Messages::because))]
fn text_of(why: u32) -> &'static [u8]
    ensures { (result.now ≡ because why) × (length result.now ≤ 36) }
{
    match why {
        1 => b"N is not one number from 16 to 256",
        2 => b"unknown call",
        3 => b"too few arguments",
        4 => b"too many arguments",
        5 => b"not a number below 4294967296",
        6 => b"the script is longer than 4096 bytes",
        7 => b"no N",
        _ => b"",
    }
}

// "`line K: REASON` and a newline"
pub fn put_unread(out: &mut [u8], k: u32, why: u32) -> usize
    requires { 64 ≤ length out.old }
    ensures { Put out.old out.new 0 result (message (unread k why)) × (result ≤ 64) }
{
    let p = put(out, 0, b"line ");
    let q = put_decimal(out, p, k);
    let r = put(out, q, b": ");
    let e = put(out, r, text_of(why));
    put(out, e, b"\n")
}

pub fn put_too_long(out: &mut [u8]) -> usize
    requires { 64 ≤ length out.old }
    ensures { Put out.old out.new 0 result (message too_long) × (result ≤ 64) }
{
    put(out, 0, b"the text is longer than 65536 bytes\n")
}

// The message stands at the start of `out`: none where there is a script.
pub fn put_message(a: Assembled, out: &mut [u8; 64]) -> usize
    ensures { Put out.old out.new 0 result (message (told a [])) × (result ≤ length out.new) }
{
    match a {
        Ok(_) => 0,
        Err(Unassembled::Unread(k, why)) => put_unread(out, k, why),
        Err(Unassembled::TooLong) => put_too_long(out),
    }
}
