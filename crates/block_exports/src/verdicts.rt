// The verdict of a memory.
ghost use Rattle.std.specs.Prelude.{◌≡◌};
ghost use Rattle.common.specs.Packed.{packed};
ghost use Rattle.common.specs.Row.{reply};
ghost use Rattle.block_kernel.specs.Verdict.{verdict};

use block_kernel::pack;

// Done with word 0 where the memory is sound, else refused with 1 DAMAGED.
#[unsafe(no_mangle)]
pub extern "C" fn tumashqin_block_verdict(words: &[u32]) -> u64
    ensures { result ≡ packed (reply (verdict words.now) 0) }
{
    pack(block_kernel::verdict(words))
}
