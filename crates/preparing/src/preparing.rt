// prepare: "takes three chained pages, enters them, appends to list".
ghost use Rattle.std.specs.Prelude.{◌≡◌, ◌+◌, ◌≤◌};
ghost use Rattle.memory.specs.Words.{word};
ghost use Rattle.memory.specs.Partition.{list};
ghost use Rattle.soundness.specs.Test.{sound_test};
ghost use Rattle.rules.specs.Call;
ghost use Rattle.rules.specs.Conditions.{child};
ghost use Rattle.rules.specs.Refusals.{refusal};
ghost use Rattle.rules.specs.Effects.{effect};
ghost use Rattle.rules.specs.Calls.{answer, after};
ghost use Rattle.answers.specs.Said.{refusal_in, said};

use crate::chains::{chain_refusal, link};
use answers::{Answer, Refusal};
use pages::IndexWidth;
use threes::lists::{append_three, put_three, roots_of};

// 1 3 5 9 10, then the chain
fn prepare_refusal(
    b: IndexWidth,
    m: &[u32],
    good: bool,
    c: u32,
    t: u32,
    p: u32,
) -> Result<(), Refusal>
    requires judged { good ≡ sound_test b.bits m.now }
    ensures { refusal_in result ≡ refusal b.bits m.now (Call.prepare c t p) }
{
    moves::child_refusal(b, m, good, &[c, t, p], c)?;
    let k = moves::child_of(b, m, c);
    if !moves::no_three(b, m, k, t) {
        return Err(Refusal::Taken);
    }
    if moves::list_full(b, m, k, t) {
        return Err(Refusal::List);
    }
    chain_refusal(b, m, p)
}

// The links are read before a page is taken and wiped.
fn prepare_effect(b: IndexWidth, m: &mut [u32], c: u32, t: u32, p: u32)
    requires few { word b.bits m.old (list b.bits m.old (child b.bits m.old c)) 0 ≤ 61 }
    ensures { m.new ≡ effect b.bits m.old (Call.prepare c t p) }
{
    let d = pages::current(b, m);
    let k = moves::child_of(b, m, c);
    let l = pages::list(b, m, k);
    let free = pages::read_word(b, m, l, 0);
    let r = roots_of(b, m, k);
    let i = pages::directory_index(b, pages::virtual_page(b, t));
    let q = link(b, m, p);
    let s = link(b, m, q);
    let x = moves::frame_at(b, m, d, p);
    let y = moves::frame_at(b, m, d, q);
    let z = moves::frame_at(b, m, d, s);
    moves::take_all(b, m, d, &[p, q, s]);
    put_three(b, m, r, i, x + 1, y + 1, z + 1);
    append_three(b, m, l, free, &[p, x, q, y, s, z]);
}

// 6. The child stands at c of the caller, t is an address of its own, and p the first page of the chain.
pub fn prepare(b: IndexWidth, m: &mut [u32], good: bool, c: u32, t: u32, p: u32) -> Answer
    requires judged { good ≡ sound_test b.bits m.old }
    ensures { (said result ≡ answer b.bits m.old (Call.prepare c t p)) × (m.new ≡ after b.bits m.old (Call.prepare c t p)) }
{
    prepare_refusal(b, m, good, c, t, p)?;
    prepare_effect(b, m, c, t, p);
    Ok(0)
}
