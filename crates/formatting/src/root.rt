// The words that format leaves, page by page.
ghost use Rattle.std.specs.Prelude.{◌≡◌, ℕ, ◌*◌, ◌<◌, ◌≤◌};
ghost use Rattle.memory.specs.Geometry.{threes_for, page_words};
ghost use Rattle.memory.specs.Format.{header_word, root_table_word, format_word};

use crate::sizes::page_address;
use header::Sizes;
use pages::{PhysicalPage, VirtualPage, flat_page};

// "word 0 N; 1 T; 2 byte offset of the root descriptor (256); 3 byte offset of the first root page, 256(6+3T); 4 physical address of the current
// partition's descriptor; the rest 0". Document 02, L4: "Page 0 word 5 is 0 for the old edition and 1 for this".
fn header_word(z: &Sizes, i: u32) -> u32
    requires pages { z.now.pages ≤ 4096 }
    ensures { result ≡ header_word z.now.width.bits z.now.pages i }
{
    let root = page_address(z.width, PhysicalPage(1));
    let first = page_address(z.width, PhysicalPage(6 + 3 * z.threes));
    let edition = pages::edition_of(z.width);
    pages::read(&[z.pages, z.threes, root, first, root, edition], i as usize)
}

// "maps virtual page v (1 to F) to page 5+3T+v with all rights, accessible"
fn table_word(z: &Sizes, v: VirtualPage) -> u32
    requires pages { (z.now.pages ≤ 4096) × (v.0 ≤ 4194304) }
    ensures { result ≡ root_table_word z.now.width.bits z.now.pages v.0 }
{
    if v.0 == 0 {
        return 0;
    }
    if z.pages < v.0 + 6 + 3 * z.threes {
        return 0;
    }
    let a = page_address(z.width, flat_page(z.threes, v));
    pages::entry_of(z.width, a, 1, 7)
}

// Word i of a page.
pub fn format_word(z: &Sizes, page: PhysicalPage, i: u32) -> u32
    requires pages { (z.now.pages ≤ 4096) × (page.0 ≤ 4096) × (i < page_words z.now.width.bits) }
    ensures { result ≡ format_word z.now.width.bits z.now.pages page.0 i }
{
    match page.0 {
        0 => header_word(z, i),
        1 => z.root_descriptor_word(i),
        p @ 2..=4 => z.root_directory_word(p - 2, i),
        5 => z.root_list_word(i),
        p if 6 + 3 * z.threes <= p => 0,
        p if p % 3 != 0 => 0,
        p => table_word(z, VirtualPage((p - 6) / 3 * pages::page_words(z.width) + i)),
    }
}

// How many words of a page may be other than 0, of n pages and t threes: all behind them are 0.
pub fn words_used(n: u32, t: u32, page: PhysicalPage) -> u32
    requires { (16 ≤ n) × (t ≤ 6144) }
    ensures { (b i : ℕ) → t ≡ threes_for b n → result ≤ i → format_word b n page.0 i ≡ 0 }
{
    // The cases are those of `format_word`.
    match page.0 {
        0 => 6,
        1 => 12,
        2..=4 => t,
        5 => 1 + 6 * t,
        p if p % 3 != 0 => 0,
        _ => n,
    }
}
