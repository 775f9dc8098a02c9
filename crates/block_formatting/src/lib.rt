// format: it "wipes all words and writes the header, the root's table word, its descriptor and first structure, and the starting block as block 8 with all
// rights, in hand, words 4 to 8 0. Entry 1 of the root is 8 ..; Root is current."
#![tactic(auto, unfolding(common::specs::Row::first, common::specs::Row::reply, common::specs::Row::pass, block_memory::specs::Geometry::permitted, block_memory::specs::Format::format, block_rules::specs::Refusals::refusals, block_rules::specs::Effects::effect, block_rules::specs::Calls::result, block_rules::specs::Calls::answer, block_rules::specs::Calls::after,))]

ghost use Rattle.std.specs.Prelude.{◌≡◌, true, length};
ghost use Rattle.block_memory.specs.Geometry;
ghost use Rattle.block_memory.specs.Format;
ghost use Rattle.block_rules.specs.Call.{format_all};
ghost use Rattle.block_rules.specs.Calls.{answer, after};
ghost use Rattle.block_answers.specs.Said.{said};

use block_answers::{Answer, Refusal};
use block_layout::{DESCRIPTOR_WORDS, FIRST_NUMBER, first_byte, permitted, root_of};

fn format_effect(m: &mut [u32])
    requires { Geometry.permitted (length m.old) ≡ true }
    ensures { m.new ≡ Format.format (length m.old) }
{
    let w = m.len();
    let root = root_of(w);
    let first = first_byte(w) as u32;
    let d = root as u32;
    common::clear(m);
    common::put_words(m, 0, &[w as u32, d, first, d]);
    common::write(m, 8 + root / 32, d);
    common::write(m, root + 8, FIRST_NUMBER);
    common::write(m, root + 16, d + (DESCRIPTOR_WORDS as u32));
    common::put_words(
        m,
        root + DESCRIPTOR_WORDS + 2,
        &[first, 4 * (w as u32), 7, 1],
    );
}

// 13: "format: length not permitted"
pub fn format(m: &mut [u32]) -> Answer
    ensures { (said result ≡ answer m.old format_all) × (m.new ≡ after m.old format_all) }
{
    if !permitted(m.len()) {
        return Err(Refusal::Length);
    }
    format_effect(m);
    Ok(0)
}
