// Format: all words are wiped; then each page below the first root page is lent as its own part of the memory and filled there.
ghost use Rattle.std.specs.Prelude.{◌≡◌, false, ℕ, ◌+◌, ◌*◌, ◌<◌, ◌≤◌, length, get_or};
ghost use Rattle.memory.specs.Geometry.{page_words};
ghost use Rattle.memory.specs.Words.{tabulate};
ghost use Rattle.memory.specs.Format;
ghost use Rattle.memory.specs.Format.{format_word};
ghost use Rattle.rules.specs.Call.{format_all};
ghost use Rattle.rules.specs.Conditions.{pages_in, wrong_size};
ghost use Rattle.rules.specs.Editions.{answer, after};
ghost use Rattle.answers.specs.Said.{said};

use crate::root::{format_word, words_used};
use crate::sizes::{pages_in, wrong_size};
use answers::{Answer, Refusal};
use header::Sizes;
use pages::{IndexWidth, PhysicalPage};

// Every word of the part s, which is page p, wiped: only the words that may be other than 0 are stored.
fn format_page(z: &Sizes, s: &mut [u32], p: PhysicalPage)
    requires pages { (16 ≤ z.now.pages) × (z.now.pages ≤ 4096) × (p.0 ≤ 4096) × (length s.old ≤ page_words z.now.width.bits) }
    requires wiped { (i : ℕ) → get_or s.old i 0 ≡ 0 }
    ensures { s.new ≡ tabulate 0 (length s.old) (format_word z.now.width.bits z.now.pages p.0) }
{
    let used = (words_used(z.pages, z.threes, p) as usize).min(s.len());
    for i in 0..used {
        s[i] = format_word(z, p, i as u32);
    }
}

// Every page of a memory that is wiped: those from the first root page on stay so.
fn format_pages(z: &Sizes, m: &mut [u32])
    requires pages { (16 ≤ z.now.pages) × (z.now.pages ≤ 4096) × (length m.old ≡ z.now.pages * page_words z.now.width.bits) }
    requires wiped { (i : ℕ) → get_or m.old i 0 ≡ 0 }
    ensures { m.new ≡ Format.format z.now.width.bits z.now.pages }
{
    for p in 0..6 + 3 * z.threes {
        let a = pages::index(z.width, PhysicalPage(p), 0);
        let e = pages::index(z.width, PhysicalPage(p + 1), 0);
        format_page(z, &mut m[a..e], PhysicalPage(p));
    }
}

fn format_effect(b: IndexWidth, m: &mut [u32])
    requires sized { wrong_size b.bits m.old ≡ false }
    ensures { m.new ≡ Format.format b.bits (pages_in b.bits m.old) }
{
    let z = Sizes::of(b, pages_in(b, m) as u32);
    m.fill(0);
    format_pages(&z, m);
}

// The call has no number, and one refusal: 2. Document 02, L4: "format takes the choice and any other value is refused with 2".
pub fn format(m: &mut [u32], edition: u32) -> Answer
    ensures { (said result ≡ answer m.old (format_all edition)) × (m.new ≡ after m.old (format_all edition)) }
{
    if edition > 1 {
        return Err(Refusal::Size);
    }
    let b = pages::width_of(edition);
    if wrong_size(b, m) {
        return Err(Refusal::Size);
    }
    format_effect(b, m);
    Ok(0)
}
