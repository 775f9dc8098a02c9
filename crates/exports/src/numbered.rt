// Format, and document 01's calls by their numbers: the words of the memory, then the arguments in its order.
// A call answers one number: the refusal's number times 2^32, plus the answer's word (`upper-half` and `lower-half` of answers/proofs/Answered).
ghost use Rattle.std.specs.Prelude.{◌≡◌};
ghost use Rattle.memory.specs.Edition.{width};
ghost use Rattle.rules.specs.Call;
ghost use Rattle.rules.specs.Editions.{answer, after};
ghost use Rattle.rules.specs.Refusals.{refusal};
ghost use Rattle.answers.specs.Packed.{packed};

use crate::halves::upper;
use answers::pack;

// Format for an edition, 0 or 1: 0, or the refusal.
#[unsafe(no_mangle)]
pub extern "C" fn tumashqin_format(words: &mut [u32], edition: u32) -> u32
    ensures { (result ≡ refusal (width words.old) words.old (Call.format_all edition))
        × (words.new ≡ after words.old (Call.format_all edition)) }
{
    upper(pack(kernel::format(words, edition)))
}

// 1. The five are descriptor, directory, shadow 1, shadow 2 and list, "taken as one group".
#[unsafe(no_mangle)]
pub extern "C" fn tumashqin_create_partition(
    words: &mut [u32],
    descriptor: u32,
    directory: u32,
    shadow1: u32,
    shadow2: u32,
    list: u32,
) -> u64
    ensures { (result ≡ packed (answer words.old (Call.create_partition descriptor directory shadow1 shadow2 list)))
        × (words.new ≡ after words.old (Call.create_partition descriptor directory shadow1 shadow2 list)) }
{
    pack(kernel::create_partition(words, [descriptor, directory, shadow1, shadow2, list]))
}

// 2.
#[unsafe(no_mangle)]
pub extern "C" fn tumashqin_delete_partition(words: &mut [u32], child: u32) -> u64
    ensures { (result ≡ packed (answer words.old (Call.delete_partition child)))
        × (words.new ≡ after words.old (Call.delete_partition child)) }
{
    pack(kernel::delete_partition(words, child))
}

// 3.
#[unsafe(no_mangle)]
pub extern "C" fn tumashqin_add_vaddr(
    words: &mut [u32],
    page: u32,
    child: u32,
    target: u32,
    rights: u32,
) -> u64
    ensures { (result ≡ packed (answer words.old (Call.add_vaddr page child target rights)))
        × (words.new ≡ after words.old (Call.add_vaddr page child target rights)) }
{
    pack(kernel::add_vaddr(words, page, child, target, rights))
}

// 4.
#[unsafe(no_mangle)]
pub extern "C" fn tumashqin_remove_vaddr(words: &mut [u32], child: u32, target: u32) -> u64
    ensures { (result ≡ packed (answer words.old (Call.remove_vaddr child target)))
        × (words.new ≡ after words.old (Call.remove_vaddr child target)) }
{
    pack(kernel::remove_vaddr(words, child, target))
}

// 5.
#[unsafe(no_mangle)]
pub extern "C" fn tumashqin_page_count(words: &[u32], child: u32, target: u32) -> u64
    ensures { (result ≡ packed (answer words.now (Call.page_count child target)))
        × (words.now ≡ after words.now (Call.page_count child target)) }
{
    pack(kernel::page_count(words, child, target))
}

// 6.
#[unsafe(no_mangle)]
pub extern "C" fn tumashqin_prepare(words: &mut [u32], child: u32, target: u32, first: u32) -> u64
    ensures { (result ≡ packed (answer words.old (Call.prepare child target first)))
        × (words.new ≡ after words.old (Call.prepare child target first)) }
{
    pack(kernel::prepare(words, child, target, first))
}

// 7.
#[unsafe(no_mangle)]
pub extern "C" fn tumashqin_collect(words: &mut [u32], child: u32, target: u32) -> u64
    ensures { (result ≡ packed (answer words.old (Call.collect child target)))
        × (words.new ≡ after words.old (Call.collect child target)) }
{
    pack(kernel::collect(words, child, target))
}

// 8.
#[unsafe(no_mangle)]
pub extern "C" fn tumashqin_mapped_in_child(words: &[u32], page: u32) -> u64
    ensures { (result ≡ packed (answer words.now (Call.mapped_in_child page)))
        × (words.now ≡ after words.now (Call.mapped_in_child page)) }
{
    pack(kernel::mapped_in_child(words, page))
}

// 9.
#[unsafe(no_mangle)]
pub extern "C" fn tumashqin_enter(words: &mut [u32], child: u32) -> u64
    ensures { (result ≡ packed (answer words.old (Call.enter child))) × (words.new ≡ after words.old (Call.enter child)) }
{
    pack(kernel::enter(words, child))
}

// 10.
#[unsafe(no_mangle)]
pub extern "C" fn tumashqin_leave(words: &mut [u32]) -> u64
    ensures { (result ≡ packed (answer words.old Call.leave)) × (words.new ≡ after words.old Call.leave) }
{
    pack(kernel::leave(words))
}

// 11.
#[unsafe(no_mangle)]
pub extern "C" fn tumashqin_load(words: &[u32], address: u32) -> u64
    ensures { (result ≡ packed (answer words.now (Call.load address)))
        × (words.now ≡ after words.now (Call.load address)) }
{
    pack(kernel::load(words, address))
}

// 12.
#[unsafe(no_mangle)]
pub extern "C" fn tumashqin_store(words: &mut [u32], address: u32, word: u32) -> u64
    ensures { (result ≡ packed (answer words.old (Call.store address word)))
        × (words.new ≡ after words.old (Call.store address word)) }
{
    pack(kernel::store(words, address, word))
}
