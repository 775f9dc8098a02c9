// The open calls: document 01's by its numbers, then document 02's. Each but format judges the memory first, and is then the call of that name at the
// width of the edition that the header names. They are one function each: docs name their contracts, and C has a function for each.
ghost use Rattle.std.specs.Prelude.{◌≡◌};
ghost use Rattle.rules.specs.Call;
ghost use Rattle.rules.specs.Editions.{answer, after, context};
ghost use Rattle.answers.specs.Said.{said};
ghost use Rattle.making.specs.Group.{creating};
ghost use Rattle.contexts.specs.Registers.{notifying};

use answers::Answer;
use resuming::Resumed;

// Format for an edition, 0 or 1. Its number in a sequence is 0, and it asks nothing of the words.
pub fn format(m: &mut [u32], edition: u32) -> Answer
    ensures { (said result ≡ answer m.old (Call.format_all edition)) × (m.new ≡ after m.old (Call.format_all edition)) }
{
    formatting::format(m, edition)
}

// 1. The five are descriptor, directory, shadow 1, shadow 2 and list.
pub fn create_partition(m: &mut [u32], five: [u32; 5]) -> Answer
    ensures { (said result ≡ answer m.old (creating five)) × (m.new ≡ after m.old (creating five)) }
{
    let b = pages::width(m);
    let good = judge::is_sound(m);
    making::create_partition(b, m, good, five)
}

// 2.
pub fn delete_partition(m: &mut [u32], child: u32) -> Answer
    ensures { (said result ≡ answer m.old (Call.delete_partition child))
        × (m.new ≡ after m.old (Call.delete_partition child)) }
{
    let b = pages::width(m);
    let good = judge::is_sound(m);
    deleting::delete_partition(b, m, good, child)
}

// 3.
pub fn add_vaddr(m: &mut [u32], page: u32, child: u32, target: u32, rights: u32) -> Answer
    ensures { (said result ≡ answer m.old (Call.add_vaddr page child target rights))
        × (m.new ≡ after m.old (Call.add_vaddr page child target rights)) }
{
    let b = pages::width(m);
    let good = judge::is_sound(m);
    adding::add_vaddr(b, m, good, page, child, target, rights)
}

// 4.
pub fn remove_vaddr(m: &mut [u32], child: u32, target: u32) -> Answer
    ensures { (said result ≡ answer m.old (Call.remove_vaddr child target))
        × (m.new ≡ after m.old (Call.remove_vaddr child target)) }
{
    let b = pages::width(m);
    let good = judge::is_sound(m);
    removing::remove_vaddr(b, m, good, child, target)
}

// 5.
pub fn page_count(m: &[u32], child: u32, target: u32) -> Answer
    ensures { (said result ≡ answer m.now (Call.page_count child target))
        × (m.now ≡ after m.now (Call.page_count child target)) }
{
    let b = pages::width(m);
    let good = judge::is_sound(m);
    counting::page_count(b, m, good, child, target)
}

// 6.
pub fn prepare(m: &mut [u32], child: u32, target: u32, first: u32) -> Answer
    ensures { (said result ≡ answer m.old (Call.prepare child target first))
        × (m.new ≡ after m.old (Call.prepare child target first)) }
{
    let b = pages::width(m);
    let good = judge::is_sound(m);
    preparing::prepare(b, m, good, child, target, first)
}

// 7.
pub fn collect(m: &mut [u32], child: u32, target: u32) -> Answer
    ensures { (said result ≡ answer m.old (Call.collect child target))
        × (m.new ≡ after m.old (Call.collect child target)) }
{
    let b = pages::width(m);
    let good = judge::is_sound(m);
    collecting::collect(b, m, good, child, target)
}

// 8.
pub fn mapped_in_child(m: &[u32], page: u32) -> Answer
    ensures { (said result ≡ answer m.now (Call.mapped_in_child page)) × (m.now ≡ after m.now (Call.mapped_in_child page)) }
{
    let b = pages::width(m);
    let good = judge::is_sound(m);
    asking::mapped_in_child(b, m, good, page)
}

// 9.
pub fn enter(m: &mut [u32], child: u32) -> Answer
    ensures { (said result ≡ answer m.old (Call.enter child)) × (m.new ≡ after m.old (Call.enter child)) }
{
    let b = pages::width(m);
    let good = judge::is_sound(m);
    entering::enter(b, m, good, child)
}

// 10.
pub fn leave(m: &mut [u32]) -> Answer
    ensures { (said result ≡ answer m.old Call.leave) × (m.new ≡ after m.old Call.leave) }
{
    let b = pages::width(m);
    let good = judge::is_sound(m);
    entering::leave(b, m, good)
}

// 11.
pub fn load(m: &[u32], address: u32) -> Answer
    ensures { (said result ≡ answer m.now (Call.load address)) × (m.now ≡ after m.now (Call.load address)) }
{
    let b = pages::width(m);
    let good = judge::is_sound(m);
    access::load(b, m, good, address)
}

// 12.
pub fn store(m: &mut [u32], address: u32, word: u32) -> Answer
    ensures { (said result ≡ answer m.old (Call.store address word)) × (m.new ≡ after m.old (Call.store address word)) }
{
    let b = pages::width(m);
    let good = judge::is_sound(m);
    access::store(b, m, good, address, word)
}

// "Notify is given eip, eflags and registers and saves them". The target is a child, or the parent under address 0.
pub fn notify(m: &mut [u32], target: u32, eip: u32, eflags: u32, registers: [u32; 8]) -> Answer
    ensures { (said result ≡ answer m.old (notifying target eip eflags registers))
        × (m.new ≡ after m.old (notifying target eip eflags registers)) }
{
    let b = pages::width(m);
    let good = judge::is_sound(m);
    notifying::notify(b, m, good, target, eip, eflags, registers)
}

// "Dispatch saves nothing."
pub fn dispatch(m: &mut [u32], target: u32) -> Answer
    ensures { (said result ≡ answer m.old (Call.dispatch target)) × (m.new ≡ after m.old (Call.dispatch target)) }
{
    let b = pages::width(m);
    let good = judge::is_sound(m);
    notifying::dispatch(b, m, good, target)
}

// "Resume answers the saved words": they stand beside the answer, zeros where it is refused.
pub fn resume(m: &mut [u32], target: u32, slot: u32) -> Resumed
    ensures { (said result.answer ≡ answer m.old (Call.resume target slot))
        × (result.words ≡ context m.old (Call.resume target slot))
        × (m.new ≡ after m.old (Call.resume target slot)) }
{
    let b = pages::width(m);
    let good = judge::is_sound(m);
    resuming::resume(b, m, good, target, slot)
}
