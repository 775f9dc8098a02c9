// delete_partition: "clears shadow 1 of descriptor and all pages lent to it; returns its kernel pages" and "every page lent to the child" (document 02, L3).
ghost use Rattle.std.specs.Prelude.{◌≡◌, ◌-◌, ◌<◌, ◌≤◌};
ghost use Rattle.memory.specs.Words.{word};
ghost use Rattle.memory.specs.Partition.{list};
ghost use Rattle.soundness.specs.Test.{sound_test};
ghost use Rattle.rules.specs.Call.{delete_partition};
ghost use Rattle.rules.specs.Moves.{return_all};
ghost use Rattle.rules.specs.Conditions.{child};
ghost use Rattle.rules.specs.Effects.{evens, effect};
ghost use Rattle.rules.specs.Calls.{answer, after};
ghost use Rattle.answers.specs.Said.{said};

use crate::releases::release_all;
use answers::Answer;
use pages::{IndexWidth, PhysicalPage};

// How many words of the list page l are in use, behind word 0.
fn listed_words(b: IndexWidth, m: &[u32], l: PhysicalPage) -> u32
    requires few { word b.bits m.now l.0 0 ≤ 61 }
    ensures { (result ≡ word b.bits m.now l.0 0 - 1) × (result ≤ 60) }
{
    pages::read_word(b, m, l, 0).saturating_sub(1)
}

// Returns the kernel pages whose addresses stand first in each pair of ws.
fn return_evens(b: IndexWidth, m: &mut [u32], d: PhysicalPage, ws: &[u32])
    ensures { m.new ≡ return_all b.bits m.old d.0 (evens ws.now) }
{
    for i in (0..ws.len()).step_by(2) {
        moves::return_page(b, m, true, d, ws[i]);
    }
}

// The child's five pairs and those of its list are saved before they are wiped. The buffers with a length beside are fixed memory: it cannot fail.
fn delete_effect(b: IndexWidth, m: &mut [u32], c: u32)
    requires some { 0 < c }
    requires few { word b.bits m.old (list b.bits m.old (child b.bits m.old c)) 0 ≤ 61 }
    ensures { m.new ≡ effect b.bits m.old (delete_partition c) }
{
    let d = pages::current(b, m);
    let k = moves::child_of(b, m, c);
    let l = pages::list(b, m, k);
    let n = listed_words(b, m, l);
    let mut five = [0u32; 10];
    let x = moves::save(b, m, k, 0, 10, &mut five);
    let mut threes = [0u32; 60];
    let y = moves::save(b, m, l, 1, n, &mut threes);
    release_all(b, m, d, c);
    pages::set_lent(b, m, d, c, 0);
    return_evens(b, m, d, &five[0..x]);
    return_evens(b, m, d, &threes[0..y]);
}

// 2. The child stands at address c of the caller; good says whether the memory is sound. Refusals 1 3 5.
pub fn delete_partition(b: IndexWidth, m: &mut [u32], good: bool, c: u32) -> Answer
    requires judged { good ≡ sound_test b.bits m.old }
    ensures { (said result ≡ answer b.bits m.old (delete_partition c)) × (m.new ≡ after b.bits m.old (delete_partition c)) }
{
    moves::child_refusal(b, m, good, &[c], c)?;
    delete_effect(b, m, c);
    Ok(0)
}
