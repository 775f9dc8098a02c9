// "document 01's name of a call or its number (1 to 12) in decimal".
ghost use Rattle.std.specs.Prelude.{◌≡◌, IfSome, ◌≤◌};
ghost use Rattle.std.specs.Option.{unwrap_or};
ghost use Rattle.text.specs.Names;
ghost use Rattle.text.specs.Names.{call_number};

use crate::numbers::{is_number, number};
use script::known_call;

// Document 01's names, in the order of their numbers.
const NAMES: [&[u8]; 12] = [
    b"createPartition",
    b"deletePartition",
    b"addVAddr",
    b"removeVAddr",
    b"pageCount",
    b"prepare",
    b"collect",
    b"mappedInChild",
    b"enter",
    b"leave",
    b"load",
    b"store",
];

// The number of the call that a word names.
pub fn named(w: &[u8]) -> Option<u32>
    ensures { (unwrap_or result 0 ≡ Names.named w.now) × IfSome result (λ k. (1 ≤ k) × (k ≤ 12)) }
{
    let place = NAMES.iter().position(|name| w == *name)?;
    Some(place as u32 + 1)
}

// The number of the call that a word says, by its name or by its number.
pub fn call_number(w: &[u8]) -> Option<u32>
    ensures { (unwrap_or result 0 ≡ call_number w.now) × IfSome result (λ k. (1 ≤ k) × (k ≤ 12)) }
{
    match named(w) {
        Some(k) => Some(k),
        None => {
            if !is_number(w) {
                return None;
            }
            let k = number(w);
            if known_call(k) { Some(k) } else { None }
        }
    }
}
