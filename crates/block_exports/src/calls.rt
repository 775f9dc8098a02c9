// Format and the calls of docs/BLOCKS.md by their numbers: the words of the memory, then the arguments in its order. Every function answers one number: the
// refusal's number times 2^32, plus the answer's word.
ghost use Rattle.std.specs.Prelude.{◌≡◌};
ghost use Rattle.common.specs.Packed.{packed};
ghost use Rattle.block_rules.specs.Call;
ghost use Rattle.block_rules.specs.Call.{serve};
ghost use Rattle.block_rules.specs.Calls.{answer, after};

use block_kernel::pack;

// 0. It asks nothing of the words.
#[unsafe(no_mangle)]
pub extern "C" fn tumashqin_block_format(words: &mut [u32]) -> u64
    ensures { (result ≡ packed (answer words.old Call.format_all)) × (words.new ≡ after words.old Call.format_all) }
{
    pack(block_kernel::format(words))
}

// 1.
#[unsafe(no_mangle)]
pub extern "C" fn tumashqin_block_create(words: &mut [u32], block: u32) -> u64
    ensures { (result ≡ packed (answer words.old (serve (Call.create block))))
        × (words.new ≡ after words.old (serve (Call.create block))) }
{
    pack(block_kernel::create(words, block))
}

// 2.
#[unsafe(no_mangle)]
pub extern "C" fn tumashqin_block_delete(words: &mut [u32], child: u32) -> u64
    ensures { (result ≡ packed (answer words.old (serve (Call.delete child))))
        × (words.new ≡ after words.old (serve (Call.delete child))) }
{
    pack(block_kernel::delete(words, child))
}

// 3. The partition is 0 for the caller, or a child.
#[unsafe(no_mangle)]
pub extern "C" fn tumashqin_block_prepare(words: &mut [u32], partition: u32, block: u32) -> u64
    ensures { (result ≡ packed (answer words.old (serve (Call.prepare partition block))))
        × (words.new ≡ after words.old (serve (Call.prepare partition block))) }
{
    pack(block_kernel::prepare(words, partition, block))
}

// 4.
#[unsafe(no_mangle)]
pub extern "C" fn tumashqin_block_collect(words: &mut [u32], partition: u32) -> u64
    ensures { (result ≡ packed (answer words.old (serve (Call.collect partition))))
        × (words.new ≡ after words.old (serve (Call.collect partition))) }
{
    pack(block_kernel::collect(words, partition))
}

// 5.
#[unsafe(no_mangle)]
pub extern "C" fn tumashqin_block_add(words: &mut [u32], child: u32, block: u32, rights: u32) -> u64
    ensures { (result ≡ packed (answer words.old (serve (Call.add child block rights))))
        × (words.new ≡ after words.old (serve (Call.add child block rights))) }
{
    pack(block_kernel::add(words, child, block, rights))
}

// 6.
#[unsafe(no_mangle)]
pub extern "C" fn tumashqin_block_remove(words: &mut [u32], child: u32, block: u32) -> u64
    ensures { (result ≡ packed (answer words.old (serve (Call.remove child block))))
        × (words.new ≡ after words.old (serve (Call.remove child block))) }
{
    pack(block_kernel::remove(words, child, block))
}

// 7.
#[unsafe(no_mangle)]
pub extern "C" fn tumashqin_block_cut(words: &mut [u32], block: u32, address: u32) -> u64
    ensures { (result ≡ packed (answer words.old (serve (Call.cut block address))))
        × (words.new ≡ after words.old (serve (Call.cut block address))) }
{
    pack(block_kernel::cut(words, block, address))
}

// 8. The two blocks may stand in either order.
#[unsafe(no_mangle)]
pub extern "C" fn tumashqin_block_merge(words: &mut [u32], first: u32, second: u32) -> u64
    ensures { (result ≡ packed (answer words.old (serve (Call.merge first second))))
        × (words.new ≡ after words.old (serve (Call.merge first second))) }
{
    pack(block_kernel::merge(words, first, second))
}

// 9.
#[unsafe(no_mangle)]
pub extern "C" fn tumashqin_block_enable(
    words: &mut [u32],
    partition: u32,
    block: u32,
    on: u32,
) -> u64
    ensures { (result ≡ packed (answer words.old (serve (Call.enable partition block on))))
        × (words.new ≡ after words.old (serve (Call.enable partition block on))) }
{
    pack(block_kernel::enable(words, partition, block, on))
}

// 12.
#[unsafe(no_mangle)]
pub extern "C" fn tumashqin_block_enter(words: &mut [u32], child: u32) -> u64
    ensures { (result ≡ packed (answer words.old (serve (Call.enter child))))
        × (words.new ≡ after words.old (serve (Call.enter child))) }
{
    pack(block_kernel::enter(words, child))
}

// 13.
#[unsafe(no_mangle)]
pub extern "C" fn tumashqin_block_leave(words: &mut [u32]) -> u64
    ensures { (result ≡ packed (answer words.old (serve Call.leave))) × (words.new ≡ after words.old (serve Call.leave)) }
{
    pack(block_kernel::leave(words))
}
