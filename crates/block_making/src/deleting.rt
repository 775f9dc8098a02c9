// delete: "wipes the structures and the descriptor of the child and of each partition below it, and their table words; gives back the block that the child
// stood in and each block of the caller with child in word 4". Who goes and what comes back is found in the memory before, and then done.
ghost use Rattle.std.specs.Prelude.{◌≡◌, cond, ℕ, ◌/◌, ◌≤◌, length, get_or, take};
ghost use Rattle.walk.specs.Finite.{keep};
ghost use Rattle.block_memory.specs.Words.{over};
ghost use Rattle.block_memory.specs.Partition.{Partition, numbers};
ghost use Rattle.block_memory.specs.Sound.{Table, Sound};
ghost use Rattle.block_soundness.specs.Test.{sound_test};
ghost use Rattle.block_rules.specs.Call;
ghost use Rattle.block_rules.specs.Call.{serve};
ghost use Rattle.block_rules.specs.Effects.{of_child, wipe_partition, give_back, delete_child};
ghost use Rattle.block_rules.specs.Calls.{answer, after};
ghost use Rattle.block_answers.specs.Said.{said};
ghost use Rattle.block_making.specs.Deleting.{passing, inside, Marks, gone};

use crate::wiping::wipe_partition;
use block_answers::Answer;
use block_layout::{MOST_STRUCTURES, child, current, end, start, structure, used};
use block_moves::{child_refusal, give_back};

// Block n of d: the child c stands in it, or it is lent to c or holds a structure of c.
#[tactic(auto, unfolding(block_rules::specs::Effects::of_child))]
fn of_child(m: &[u32], d: u32, c: u32, n: u32) -> bool
    ensures { result ≡ of_child m.now d c n }
{
    used(m, d, n) != 0 && (n == c || child(m, d, n) == c)
}

// The numbers of the blocks of d that come back, in order, written at the start of out. It passes over the structures that aren't there.
fn find_back<'a>(m: &[u32], d: u32, c: u32, out: &'a mut [u32; 128]) -> &'a [u32]
    ensures { result.now ≡ keep (of_child m.now d c) numbers }
{
    let mut r = 0;
    for k in 1..=MOST_STRUCTURES {
        if structure(m, d, k) != 0 {
            for n in 8 * k..8 * k + 8 {
                if of_child(m, d, c, n) {
                    out[r] = n;
                    r += 1;
                }
            }
        }
    }
    &out[..r]
}

// The partition t if it stands in the bytes from start up to end, else what was there before.
#[tactic(auto, unfolding(crate::specs::Deleting::inside))]
fn mark(t: u32, start: u32, end: u32, before: u32) -> u32
    ensures { result ≡ cond (inside start end t) t before }
{
    let x = 4 * u64::from(t);
    if t != 0 && u64::from(start) <= x && x < u64::from(end) {
        t
    } else {
        before
    }
}

// Into its place of out each partition that stands in the bytes from start up to end. A table word has its place by the 128 bytes that its partition
// stands in, so that no place but those of the block is looked at.
fn mark_block(m: &[u32], start: u32, end: u32, out: &mut [u32])
    requires { Table m.now × (length out.old ≤ length m.now / 32) }
    ensures { Marks m.now start end out.old out.new }
{
    let e = (end as usize).div_ceil(128).min(out.len());
    for j in (start / 128) as usize..e {
        out[j] = mark(common::read(m, 8 + j), start, end, out[j]);
    }
}

// Into each place j of out the partition of table word j if it stands in one of the blocks ns of d, else 0: "those whose descriptors stand in blocks that the
// caller lent to it".
fn find_gone(m: &[u32], d: u32, ns: &[u32], out: &mut [u32])
    requires { Table m.now × (length out.old ≤ length m.now / 32) × ((j : ℕ) → get_or out.old j 0 ≡ 0) }
    ensures { out.new ≡ gone m.now d ns.now (length out.old) }
{
    for n in ns {
        mark_block(m, start(m, d, *n), end(m, d, *n), out);
    }
}

// Each partition of ts but 0 is wiped.
fn wipe_gone(m: &mut [u32], ts: &[u32])
    ensures { m.new ≡ over (passing wipe_partition) m.old ts.now }
{
    for t in ts {
        if *t != 0 {
            wipe_partition(m, *t);
        }
    }
}

// Each block of ns is given back to d.
fn give_all_back(m: &mut [u32], d: u32, ns: &[u32])
    ensures { m.new ≡ over (λ w n. give_back w d n) m.old ns.now }
{
    for n in ns {
        give_back(m, d, *n);
    }
}

// gone has a place for each word of the table, each 0, and back one for each number: who goes and what comes back is written there.
fn delete_with(m: &mut [u32], d: u32, c: u32, gone: &mut [u32], back: &mut [u32; 128])
    requires { Sound m.old × Partition m.old d × (length gone.old ≡ length m.old / 32) × ((j : ℕ) → get_or gone.old j 0 ≡ 0) }
    ensures { m.new ≡ delete_child m.old d c }
{
    let ns = find_back(m, d, c, back);
    find_gone(m, d, ns, gone);
    wipe_gone(m, gone);
    give_all_back(m, d, ns);
}

// The table of a sound memory has 512 words at most, and a pool 128 numbers. Both lists are fixed memory, so that delete cannot fail.
fn delete_effect(m: &mut [u32], d: u32, c: u32)
    requires { Sound m.old × Partition m.old d }
    ensures { m.new ≡ delete_child m.old d c }
{
    let n = m.len() / 32;
    let mut gone = [0u32; 512];
    let mut back = [0u32; 128];
    delete_with(m, d, c, &mut gone[0..n], &mut back);
}

// 1 2
pub fn delete(m: &mut [u32], good: bool, c: u32) -> Answer
    requires { good ≡ sound_test m.old }
    ensures { (said result ≡ answer m.old (serve (Call.delete c))) × (m.new ≡ after m.old (serve (Call.delete c))) }
{
    child_refusal(m, good, c)?;
    let d = current(m);
    delete_effect(m, d, c);
    Ok(0)
}
