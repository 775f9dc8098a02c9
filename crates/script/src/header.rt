// "little-endian words: N, record count, byte offset of the first record (12 up to the length; bytes between are ignored)".
ghost use Rattle.std.specs.Prelude.{◌≡◌};
ghost use Rattle.rules.specs.Replay.{script};
ghost use Rattle.script.specs.Walk.{is_script, good_header};

use crate::records::all_records;
use pages::{IndexWidth, page_words};
use record::word_in;

// No "short header, bad offset, bad N, .. or longer input".
pub fn good_header(b: IndexWidth, bytes: &[u8]) -> bool
    ensures { result ≡ good_header b.bits bytes.now }
{
    if bytes.len() < 12 {
        return false;
    }
    if bytes.len() > 4096 {
        return false;
    }
    let first = word_in(bytes, 8) as usize;
    if first < 12 {
        return false;
    }
    if first > bytes.len() {
        return false;
    }
    let n = word_in(bytes, 0);
    if n < 16 {
        return false;
    }
    n <= 4 * page_words(b)
}

// Whether the bytes are a script; else replay "prints only `bad script`".
pub fn well_formed(b: IndexWidth, bytes: &[u8]) -> bool
    ensures { result ≡ is_script (script b.bits bytes.now) }
{
    if !good_header(b, bytes) {
        return false;
    }
    all_records(bytes, word_in(bytes, 4), word_in(bytes, 8) as usize)
}
