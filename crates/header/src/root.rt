// "Root's descriptor, directory, shadow roots and list are as format leaves them": the first words of each page, and zeros behind them.
ghost use Rattle.std.specs.Prelude.{◌≡◌, ◌&&◌, ◌||◌, ◌+◌, ◌<◌, eqb};
ghost use Rattle.walk.specs.Finite.{from, all};
ghost use Rattle.memory.specs.Geometry.{page_words};
ghost use Rattle.memory.specs.Words.{word};
ghost use Rattle.memory.specs.Format.{format_word, root_descriptor_word, root_directory_word, root_list_word};
ghost use Rattle.memory.specs.Partition;

use crate::formatted::Sizes;
use own_pages::zero_from;
use pages::{IndexWidth, PhysicalPage, page_words, pages, read_word};

// Word 12, the live flag, is left out.
fn root_descriptor(z: &Sizes, m: &[u32]) -> bool
    ensures { result
        ≡ all (λ i. eqb i 12 || eqb (word z.now.width.bits m.now 1 i) (root_descriptor_word z.now.width.bits i)) (from (page_words z.now.width.bits) 0) }
{
    let b = z.width;
    let d = PhysicalPage(1);
    (0..12).all(|i| read_word(b, m, d, i) == z.root_descriptor_word(i)) && zero_from(b, m, d, 13)
}

// k is 0 for the directory, 1 and 2 for the shadows.
fn root_directory(z: &Sizes, m: &[u32], k: u32) -> bool
    requires kind { k < 3 }
    ensures { result
        ≡ all (λ i. eqb (word z.now.width.bits m.now (2 + k) i) (root_directory_word z.now.width.bits z.now.pages k i)) (from (page_words z.now.width.bits) 0) }
{
    let b = z.width;
    let p = PhysicalPage(2 + k);
    let end = z.threes.min(page_words(b));
    (0..end).all(|i| read_word(b, m, p, i) == z.root_directory_word(k, i))
        && zero_from(b, m, p, end)
}

fn root_list(z: &Sizes, m: &[u32]) -> bool
    ensures { result
        ≡ all (λ i. eqb (word z.now.width.bits m.now 5 i) (root_list_word z.now.width.bits z.now.pages i)) (from (page_words z.now.width.bits) 0) }
{
    let b = z.width;
    let l = PhysicalPage(5);
    let end = (1 + 6 * z.threes).min(page_words(b));
    (0..end).all(|i| read_word(b, m, l, i) == z.root_list_word(i)) && zero_from(b, m, l, end)
}

// The five pages of the root.
pub fn root_pages(b: IndexWidth, m: &[u32]) -> bool
    ensures { result
        ≡ all
        (λ p.
        all
        (λ i. (eqb p 0 && eqb i 12) || eqb (word b.bits m.now (1 + p) i) (format_word b.bits (Partition.pages b.bits m.now) (1 + p) i))
        (from (page_words b.bits) 0))
        (from 5 0) }
{
    let z = Sizes::of(b, pages(b, m));
    root_descriptor(&z, m) && (0..3).all(|k| root_directory(&z, m, k)) && root_list(&z, m)
}
