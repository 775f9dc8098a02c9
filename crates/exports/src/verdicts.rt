// The verdict of a memory.
ghost use Rattle.std.specs.Prelude.{◌≡◌};
ghost use Rattle.kernel.specs.Verdict.{verdict};

use crate::halves::upper;
use answers::pack;

// 0 where the memory is sound, else 1 DAMAGED.
#[unsafe(no_mangle)]
pub extern "C" fn tumashqin_verdict(words: &[u32]) -> u32
    ensures { result ≡ verdict words.now }
{
    let a = kernel::verdict(words);
    upper(pack(a))
}
