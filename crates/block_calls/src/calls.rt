// The calls, by the numbers of docs/BLOCKS.md. Each but format judges the memory first.
ghost use Rattle.std.specs.Prelude.{◌≡◌};
ghost use Rattle.block_rules.specs.Call;
ghost use Rattle.block_rules.specs.Call.{serve};
ghost use Rattle.block_rules.specs.Calls.{answer, told, after};
ghost use Rattle.block_answers.specs.Said.{said};

use block_answers::{Answer, Told};
use block_judge::is_sound;

// 0. It asks nothing of the words.
pub fn format(m: &mut [u32]) -> Answer
    ensures { (said result ≡ answer m.old Call.format_all) × (m.new ≡ after m.old Call.format_all) }
{
    block_formatting::format(m)
}

// 1.
pub fn create(m: &mut [u32], block: u32) -> Answer
    ensures { (said result ≡ answer m.old (serve (Call.create block))) × (m.new ≡ after m.old (serve (Call.create block))) }
{
    let good = is_sound(m);
    block_making::create(m, good, block)
}

// 2.
pub fn delete(m: &mut [u32], child: u32) -> Answer
    ensures { (said result ≡ answer m.old (serve (Call.delete child))) × (m.new ≡ after m.old (serve (Call.delete child))) }
{
    let good = is_sound(m);
    block_making::delete(m, good, child)
}

// 3. The partition is 0 for the caller, or a child.
pub fn prepare(m: &mut [u32], partition: u32, block: u32) -> Answer
    ensures { (said result ≡ answer m.old (serve (Call.prepare partition block)))
        × (m.new ≡ after m.old (serve (Call.prepare partition block))) }
{
    let good = is_sound(m);
    block_preparing::prepare(m, good, partition, block)
}

// 4.
pub fn collect(m: &mut [u32], partition: u32) -> Answer
    ensures { (said result ≡ answer m.old (serve (Call.collect partition)))
        × (m.new ≡ after m.old (serve (Call.collect partition))) }
{
    let good = is_sound(m);
    block_preparing::collect(m, good, partition)
}

// 5.
pub fn add(m: &mut [u32], child: u32, block: u32, rights: u32) -> Answer
    ensures { (said result ≡ answer m.old (serve (Call.add child block rights)))
        × (m.new ≡ after m.old (serve (Call.add child block rights))) }
{
    let good = is_sound(m);
    block_lending::add(m, good, child, block, rights)
}

// 6.
pub fn remove(m: &mut [u32], child: u32, block: u32) -> Answer
    ensures { (said result ≡ answer m.old (serve (Call.remove child block)))
        × (m.new ≡ after m.old (serve (Call.remove child block))) }
{
    let good = is_sound(m);
    block_lending::remove(m, good, child, block)
}

// 7.
pub fn cut(m: &mut [u32], block: u32, address: u32) -> Answer
    ensures { (said result ≡ answer m.old (serve (Call.cut block address)))
        × (m.new ≡ after m.old (serve (Call.cut block address))) }
{
    let good = is_sound(m);
    block_cutting::cut(m, good, block, address)
}

// 8. The two blocks may stand in either order.
pub fn merge(m: &mut [u32], first: u32, second: u32) -> Answer
    ensures { (said result ≡ answer m.old (serve (Call.merge first second)))
        × (m.new ≡ after m.old (serve (Call.merge first second))) }
{
    let good = is_sound(m);
    block_cutting::merge(m, good, first, second)
}

// 9.
pub fn enable(m: &mut [u32], partition: u32, block: u32, on: u32) -> Answer
    ensures { (said result ≡ answer m.old (serve (Call.enable partition block on)))
        × (m.new ≡ after m.old (serve (Call.enable partition block on))) }
{
    let good = is_sound(m);
    block_enabling::enable(m, good, partition, block, on)
}

// 10. The six words stand beside the answer.
pub fn read_enabled(m: &[u32], partition: u32, entry: u32) -> Told
    ensures { (said result.answer ≡ answer m.now (serve (Call.read_enabled partition entry)))
        × (result.words ≡ told m.now (serve (Call.read_enabled partition entry)))
        × (m.now ≡ after m.now (serve (Call.read_enabled partition entry))) }
{
    let good = is_sound(m);
    block_telling::read_enabled(m, good, partition, entry)
}

// 11. The six words stand beside the answer.
pub fn find(m: &[u32], partition: u32, address: u32) -> Told
    ensures { (said result.answer ≡ answer m.now (serve (Call.find partition address)))
        × (result.words ≡ told m.now (serve (Call.find partition address)))
        × (m.now ≡ after m.now (serve (Call.find partition address))) }
{
    let good = is_sound(m);
    block_telling::find(m, good, partition, address)
}

// 12.
pub fn enter(m: &mut [u32], child: u32) -> Answer
    ensures { (said result ≡ answer m.old (serve (Call.enter child))) × (m.new ≡ after m.old (serve (Call.enter child))) }
{
    let good = is_sound(m);
    block_entering::enter(m, good, child)
}

// 13.
pub fn leave(m: &mut [u32]) -> Answer
    ensures { (said result ≡ answer m.old (serve Call.leave)) × (m.new ≡ after m.old (serve Call.leave)) }
{
    let good = is_sound(m);
    block_entering::leave(m, good)
}
