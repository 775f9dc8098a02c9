// "Each listed three stands at one directory index, and each index that has tables is listed once."
ghost use Rattle.std.specs.Prelude.{◌≡◌, true, false, ℕ, ◌&&◌, ◌+◌, ◌*◌, ◌<◌, ◌≤◌, eqb, length, get_or, MatchOption};
ghost use Rattle.walk.specs.Finite.{from, all, once};
ghost use Rattle.memory.specs.Words.{word};
ghost use Rattle.memory.specs.Partition;
ghost use Rattle.soundness.specs.Test.{list_test};
ghost use Rattle.own_pages.specs.Asked.{listed_as, Never, First, Sole};

use own_pages::{Own, Three};

// The pages of a partition whose list has passed.
#[derive(Clone, Copy)]
pub struct Listed<'m> {
    pub own: Own<'m>,
    pub ghost passed: { list_test own.width.bits own.words.now own.descriptor.0 ≡ true },
}

impl Listed<'_> {
    // The words with which three j of the list stands: page table, shadow 1 table, shadow 2 table, and 1 more.
    pub fn three_of(&self, j: u32) -> Three
        requires there { j < self.now.own.threes }
        ensures { let o = self.now.own in
            let listed = word o.width.bits o.words.now (Partition.list o.width.bits o.words.now o.descriptor.0) in
            (result.0 ≡ listed (2 + 6 * j) + 1) × (result.1 ≡ listed (4 + 6 * j) + 1) × (result.2 ≡ listed (6 + 6 * j) + 1) }
    {
        let p = 6 * (j as usize);
        let x = self.own.list_at(2 + p);
        let y = self.own.list_at(4 + p);
        let z = self.own.list_at(6 + p);
        Three(x + 1, y + 1, z + 1)
    }

    // The first three from j on whose words are t.
    fn next_listed(&self, t: Three, j: u32) -> Option<u32>
        ensures { let o = self.now.own in
            let f = listed_as o.width.bits o.words.now o.descriptor.0 t.0 t.1 t.2 in
            MatchOption result (Never f o.threes j) (First f o.threes j) }
    {
        (j..self.own.threes).find(|k| t == self.three_of(*k))
    }

    // The place of the one three whose words are t, where t is listed once.
    pub fn place(&self, t: Three) -> Option<u32>
        ensures { let o = self.now.own in
            let f = listed_as o.width.bits o.words.now o.descriptor.0 t.0 t.1 t.2 in
            MatchOption result (once f (from o.threes 0) ≡ false) (Sole f o.threes) }
    {
        let j = self.next_listed(t, 0)?;
        match self.next_listed(t, j + 1) {
            None => Some(j),
            Some(_) => None,
        }
    }
}

// Each of n threes was met once.
pub fn all_met(met: &[u8], n: u32) -> bool
    requires { n ≤ length met.now }
    ensures { result ≡ all (λ j. eqb (get_or met.now j 0) 1) (from n 0) }
{
    met[..n as usize].iter().all(|x| *x == 1)
}
