// The three table words of a partition at one address: w of the page table, x of shadow 1, y of shadow 2.
ghost use Rattle.std.specs.Prelude.{◌≡◌, true, ◌&&◌, ◌||◌, ◌+◌, ◌≤◌, ◌<◌, eqb, length, get_or, is_some, IfSome};
ghost use Rattle.walk.specs.Finite.{from};
ghost use Rattle.memory.specs.Geometry.{page_words, address};
ghost use Rattle.memory.specs.Words.{word};
ghost use Rattle.memory.specs.Partition;
ghost use Rattle.judging.specs.Quick.{rise};
ghost use Rattle.tally.specs.Run.{run, asking};
ghost use Rattle.tally.specs.Rows.{virtual_pages, Lends, from_words, below_words, lent_word, Passed, shadow1_word, cell_words, last_word, rise_at};
ghost use Rattle.judge.specs.Alone.{cells_test};
ghost use Rattle.tally.specs.Blocks.{empty_block};

use forms::{child_forms, entry_test};
use own_pages::{memory_end, virtual_address};
use pages::{
    IndexWidth, PhysicalPage, VirtualPage, address_of, directory, flags_added, frame, page_of,
    page_words, parent, read, read_word, rights, shadow1, shadow2, table_word, virtual_page,
    words_of,
};
use tally::{block_of, lent_test, table_of, used_places};

// A partition as a lender: its directory and its shadow 1.
#[derive(Clone, Copy)]
pub struct Lender {
    pub directory: PhysicalPage,
    pub shadow1: PhysicalPage,
}

pub fn lender_of(b: IndexWidth, m: &[u32], d: PhysicalPage) -> Lender
    ensures { Lends b.bits m.now d.0 result.directory.0 result.shadow1.0 }
{
    Lender {
        directory: directory(b, m, d),
        shadow1: shadow1(b, m, d),
    }
}

// The partition whose cells are asked, in the memory m, looked up once: its descriptor's page, itself and its parent as lenders, its address in its parent,
// and where the memory ends.
#[derive(Clone, Copy)]
pub struct Asked<'a> {
    pub b: IndexWidth,
    pub m: &'a [u32],
    pub descriptor: PhysicalPage,
    pub own: Lender,
    pub parent: Lender,
    pub child: u32,
    pub end: u64,
    pub ghost at_own: { Lends b.bits m.now descriptor.0 own.directory.0 own.shadow1.0 },
    pub ghost at_parent: { Lends b.bits m.now (Partition.parent b.bits m.now descriptor.0) parent.directory.0 parent.shadow1.0 },
    pub ghost at_child: { child ≡ word b.bits m.now descriptor.0 0 },
    pub ghost at_end: { end ≡ address b.bits (Partition.pages b.bits m.now) },
}

pub fn looked_up(b: IndexWidth, m: &[u32], d: PhysicalPage) -> Asked<'_>
    ensures { (result.b.bits ≡ b.bits) × (result.m.now ≡ m.now) × (result.descriptor.0 ≡ d.0) }
{
    let own = lender_of(b, m, d);
    let above = lender_of(b, m, parent(b, m, d));
    Asked {
        b,
        m,
        descriptor: d,
        own,
        parent: above,
        child: read_word(b, m, d, 0),
        end: memory_end(b, m),
    }
}

// "Every page mapped in a child is mapped in its parent at the shadow 2 address, same page, same accessible bit, no right added, and the parent's shadow
// 1 names that child"
pub fn from_parent(b: IndexWidth, m: &[u32], p: Lender, child: u32, w: u32, y: u32) -> bool
    ensures { result ≡ from_words b.bits m.now p.directory.0 p.shadow1.0 child w y }
{
    let v = virtual_page(b, y);
    let u = table_word(b, m, p.directory, v);
    if u == 0 {
        return false;
    }
    if (frame(b, w) ^ frame(b, u)) | flags_added(w, u) != 0 {
        return false;
    }
    table_word(b, m, p.shadow1, v) == child
}

// The last shadow 1 word above 1, once x is reached.
fn last_lent(x: u32, to: u32) -> u32
    ensures { result ≡ last_word to x }
{
    if x <= 1 { to } else { x }
}

// The three words at one place of a row.
#[derive(Clone, Copy)]
struct Words {
    w: u32,
    x: u32,
    y: u32,
}

// The three tables of a row; the places below n lie in all of them.
#[derive(Clone, Copy)]
struct Tables<'a> {
    pt: &'a [u32],
    s1: &'a [u32],
    s2: &'a [u32],
    n: usize,
    ghost inside: { (n ≤ length pt.now) × (n ≤ length s1.now) × (n ≤ length s2.now) },
}

impl Tables<'_> {
    fn words_at(&self, j: usize) -> Words
        ensures { (result.w ≡ get_or self.now.pt.now j 0) × (result.x ≡ get_or self.now.s1.now j 0) × (result.y ≡ get_or self.now.s2.now j 0) }
    {
        if j < self.n {
            return Words {
                w: self.pt[j],
                x: self.s1[j],
                y: self.s2[j],
            };
        }
        Words {
            w: read(self.pt, j),
            x: read(self.s1, j),
            y: read(self.s2, j),
        }
    }

    // A block in which the words of all three are 0.
    fn empty_cells(&self, i: usize) -> bool
        requires { i + 8 < 18446744073709551616 }
        ensures { result
            ≡ (empty_block self.now.pt.now self.now.n i && empty_block self.now.s1.now self.now.n i
            && empty_block self.now.s2.now self.now.n i) }
    {
        if !block_of(self.pt, self.n, i, 0, 8) {
            return false;
        }
        if !block_of(self.s1, self.n, i, 0, 8) {
            return false;
        }
        block_of(self.s2, self.n, i, 0, 8)
    }
}

// The last shadow 2 word, once y is reached: y where it is above the one before, else the largest word, which no other is above.
fn risen(top: u32, y: u32) -> u32
    ensures { result ≡ rise top y }
{
    if top < y { y } else { u32::MAX }
}

impl Asked<'_> {
    // A mapping of the root comes from no other partition. One of another partition is not "both writable and executable" (document 02, L7): its rights are
    // not 6 or 7.
    pub fn origin(&self, w: u32, y: u32) -> bool
        ensures { result
            ≡ (eqb self.now.descriptor.0 1
            || below_words self.now.b.bits self.now.m.now self.now.parent.directory.0 self.now.parent.shadow1.0 self.now.child w y) }
    {
        if self.descriptor.0 == 1 {
            return true;
        }
        if rights(w) >= 6 {
            return false;
        }
        from_parent(self.b, self.m, self.parent, self.child, w, y)
    }

    // "the virtual address of the child's descriptor if the page is lent"
    pub fn lent_word(&self, x: u32) -> bool
        ensures { result ≡ lent_word self.now.b.bits self.now.m.now self.now.descriptor.0 x }
    {
        if !virtual_address(self.b, x) {
            return false;
        }
        let v = virtual_page(self.b, x);
        if table_word(self.b, self.m, self.own.directory, v) == 0 {
            return false;
        }
        table_word(self.b, self.m, self.own.shadow1, v) == 1
    }

    // "0, or the virtual address of the child's descriptor if the page is lent, or 1 if the page is itself a child's descriptor"
    pub fn shadow1_word(&self, v: VirtualPage, w: u32, x: u32) -> bool
        requires page { v.0 < virtual_pages self.now.b.bits }
        ensures { result ≡ shadow1_word self.now.b.bits self.now.m.now self.now.descriptor.0 (address self.now.b.bits v.0) w x }
    {
        if x == 0 {
            return true;
        }
        if x == 1 {
            return child_forms(
                self.b,
                self.m,
                self.descriptor,
                address_of(self.b, v),
                page_of(self.b, w),
            );
        }
        self.lent_word(x)
    }

    // "An absent mapping has 0 in all three table words." Neighbours are often lent to the same child: `to` is a shadow 1 word of d that passed before, or 0.
    pub fn cell(&self, v: VirtualPage, w: u32, x: u32, y: u32, to: u32) -> bool
        requires page { v.0 < virtual_pages self.now.b.bits }
        requires passed { Passed self.now.b.bits self.now.m.now self.now.descriptor.0 to }
        ensures { result ≡ cell_words self.now.b.bits self.now.m.now self.now.descriptor.0 (address self.now.b.bits v.0) w x y }
    {
        if w == 0 {
            if x != 0 {
                return false;
            }
            return y == 0;
        }
        if !entry_test(self.b, self.m, self.end, w) {
            return false;
        }
        if !virtual_address(self.b, y) {
            return false;
        }
        if x != to {
            if !self.shadow1_word(v, w, x) {
                return false;
            }
        }
        self.origin(w, y)
    }

    // A row, from virtual page v on, where the rows before it came to the shadow 2 word `before`. Where its cells pass it answers the last shadow 2 word, as
    // long as they rise. Blocks without a word are passed over.
    pub fn cells_row(
        &self,
        v: VirtualPage,
        pt: &[u32],
        s1: &[u32],
        s2: &[u32],
        before: u32,
    ) -> Option<u32>
        requires row { v.0 + page_words self.now.b.bits ≤ virtual_pages self.now.b.bits }
        ensures { (is_some result
            ≡ run (asking (λ j. cell_words self.now.b.bits self.now.m.now self.now.descriptor.0 (address self.now.b.bits (v.0 + j)) (get_or pt.now j 0)
            (get_or s1.now j 0) (get_or s2.now j 0))) true (from (page_words self.now.b.bits) 0))
            × IfSome result (λ u. u ≡ run (λ t j. rise_at t (get_or pt.now j 0) (get_or s2.now j 0)) before (from (page_words self.now.b.bits) 0)) }
    {
        let t = Tables {
            pt,
            s1,
            s2,
            n: pt.len().min(s1.len()).min(s2.len()),
        };
        let end = page_words(self.b) as usize;
        let mut to: u32 = 0;
        let mut top = before;
        // The step is eight places or one, by what stands there: no range has it.
        let mut j = 0;
        while j < end {
            if t.empty_cells(j) {
                j += 8;
            } else {
                let c = t.words_at(j);
                if !self.cell(VirtualPage(v.0 + (j as u32)), c.w, c.x, c.y, to) {
                    return None;
                }
                to = last_lent(c.x, to);
                if c.w != 0 {
                    top = risen(top, c.y);
                }
                j += 1;
            }
        }
        Some(top)
    }
}

// The table words at all addresses for which d has tables; and "conversely each lent page is mapped in that child once", where d maps so many pages. Where
// its shadow 2 words rise no two are the same, and the pages that its parent lends to it need not be counted.
pub fn cells_test(b: IndexWidth, m: &[u32], d: PhysicalPage, mapped: u32) -> bool
    ensures { result ≡ cells_test b.bits m.now d.0 mapped }
{
    let a = looked_up(b, m, d);
    let dir = words_of(b, m, a.own.directory);
    let sh1 = words_of(b, m, a.own.shadow1);
    let sh2 = words_of(b, m, shadow2(b, m, d));
    let mut top: u32 = 0;
    for i in used_places(dir) {
        let pt = table_of(b, m, dir[i]);
        let s1 = table_of(b, m, read(sh1, i));
        let s2 = table_of(b, m, read(sh2, i));
        let Some(u) = a.cells_row(VirtualPage((i as u32) * page_words(b)), pt, s1, s2, top) else {
            return false;
        };
        top = u;
    }
    if top != u32::MAX {
        return true;
    }
    lent_test(b, m, d, mapped)
}
