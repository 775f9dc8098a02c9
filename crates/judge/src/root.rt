// "Root's descriptor, directory, shadow roots and list are as format leaves them; it maps exactly the flat pages, with all rights and shadow 2 words 0."
ghost use Rattle.std.specs.Prelude.{◌≡◌, true, ◌+◌, ◌-◌, ◌*◌, ◌≤◌, ◌<◌, min, length, get_or};
ghost use Rattle.walk.specs.Finite.{from, all};
ghost use Rattle.memory.specs.Geometry.{page_words};
ghost use Rattle.memory.specs.Counts.{tabled};
ghost use Rattle.soundness.specs.Test.{root_map_test, root_test};
ghost use Rattle.tally.specs.Run.{run, asking};
ghost use Rattle.tally.specs.Rows.{virtual_pages, root_words};

use header::root_pages;
use own_pages::zeros;
use pages::{
    IndexWidth, PhysicalPage, VirtualPage, directory, flat_page, flat_pages, page_of, page_words,
    pages, read, rights, shadow2, threes_for, words_of,
};
use tally::{table_of, used_places};

// The root's words at virtual page v: "it maps exactly the flat pages, with all rights". There are t threes and `flat` flat pages.
pub fn root_cell(b: IndexWidth, t: u32, flat: u32, v: VirtualPage, w: u32, y: u32) -> bool
    requires page { 5 + 3 * t + v.0 < 4294967296 }
    ensures { result ≡ root_words b.bits t flat v.0 w y }
{
    if y != 0 {
        return false;
    }
    if v.0 == 0 {
        return w == 0;
    }
    if flat < v.0 {
        return w == 0;
    }
    if page_of(b, w).0 != flat_page(t, v).0 {
        return false;
    }
    rights(w) == 7
}

// Of the n places of a row, from virtual page v on, those that are no higher than the last flat page.
fn flat_places(flat: u32, v: VirtualPage, n: usize) -> usize
    ensures { result ≡ min (flat + 1 - v.0) n }
{
    if flat < v.0 {
        return 0;
    }
    (((flat - v.0) as usize) + 1).min(n)
}

// A row of the root, from virtual page v on. Of the places that both tables have, those up to the last flat page are counted without a branch; the words at
// the others are 0.
pub fn root_row(b: IndexWidth, t: u32, flat: u32, v: VirtualPage, pt: &[u32], s2: &[u32]) -> bool
    requires row { v.0 + page_words b.bits ≤ virtual_pages b.bits }
    requires page { 5 + 3 * t + virtual_pages b.bits ≤ 4294967296 }
    requires short { length pt.now ≤ page_words b.bits }
    ensures { result
        ≡ run (asking (λ j. root_words b.bits t flat (v.0 + j) (get_or pt.now j 0) (get_or s2.now j 0))) true (from (page_words b.bits) 0) }
{
    let n = pt.len().min(s2.len());
    let e = flat_places(flat, v, n);
    let mut k: u32 = 0;
    for i in 0..e {
        k += u32::from(root_cell(b, t, flat, VirtualPage(v.0 + (i as u32)), pt[i], s2[i]));
    }
    if (k as usize) < e {
        return false;
    }
    if !zeros(pt, e, n) {
        return false;
    }
    if !zeros(s2, e, n) {
        return false;
    }
    let end = page_words(b);
    for j in (n as u32)..end {
        if !root_cell(
            b,
            t,
            flat,
            VirtualPage(v.0 + j),
            read(pt, j as usize),
            read(s2, j as usize),
        ) {
            return false;
        }
    }
    true
}

// The root's tables.
pub fn root_map(b: IndexWidth, m: &[u32]) -> bool
    ensures { result ≡ all (root_map_test b.bits m.now) (tabled b.bits m.now 1) }
{
    let n = pages(b, m);
    let t = threes_for(b, n);
    let flat = flat_pages(b, n);
    let dir = words_of(b, m, directory(b, m, PhysicalPage(1)));
    let sh2 = words_of(b, m, shadow2(b, m, PhysicalPage(1)));
    for i in used_places(dir) {
        let pt = table_of(b, m, dir[i]);
        let s2 = table_of(b, m, read(sh2, i));
        if !root_row(b, t, flat, VirtualPage((i as u32) * page_words(b)), pt, s2) {
            return false;
        }
    }
    true
}

pub fn root_test(b: IndexWidth, m: &[u32]) -> bool
    ensures { result ≡ root_test b.bits m.now }
{
    if !root_pages(b, m) {
        return false;
    }
    root_map(b, m)
}
