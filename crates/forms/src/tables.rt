// "the words have the forms above": the words of a directory and of the tables.
ghost use Rattle.std.specs.Prelude.{◌≡◌};
ghost use Rattle.memory.specs.Geometry.{address};
ghost use Rattle.memory.specs.Partition.{pages};
ghost use Rattle.soundness.specs.Test.{table_link};
ghost use Rattle.judging.specs.Quick.{entry_test};
ghost use Rattle.own_pages.specs.Asked.{links};

use own_pages::{Three, in_memory};
use pages::{IndexWidth, frame, place};

// "0 or a table's physical address + 1"
#[tactic(auto, unfolding(soundness::specs::Test::table_link))]
pub fn table_link(b: IndexWidth, m: &[u32], w: u32) -> bool
    ensures { result ≡ table_link b.bits m.now w }
{
    w == 0 || (frame(b, w) + 1 == w && in_memory(b, m, w))
}

// "All three have tables at the same i": t has the words of directory and shadows.
#[tactic(auto, unfolding(soundness::specs::Test::table_link, own_pages::specs::Asked::links))]
pub fn three_links(b: IndexWidth, m: &[u32], t: Three) -> bool
    ensures { result ≡ links b.bits m.now t.0 t.1 t.2 }
{
    if t.0 == 0 {
        return t.1 == 0 && t.2 == 0;
    }
    t.1 != 0 && t.2 != 0 && table_link(b, m, t.0) && table_link(b, m, t.1) && table_link(b, m, t.2)
}

// "physical address + 1 + 2·accessible + 4·rights": of the bits below the page's size, but for accessible and rights (bits 1 to 4), just the lowest is
// set. The mask is 2^32 − 1 − 30. The judge asks this of every mapping, so that the end of the memory is worked out once.
pub fn entry_test(b: IndexWidth, m: &[u32], end: u64, w: u32) -> bool
    requires end { end ≡ address b.bits (pages b.bits m.now) }
    ensures { result ≡ entry_test b.bits m.now w }
{
    place(b, w) & 4294967265 == 1 && u64::from(w) < end
}
