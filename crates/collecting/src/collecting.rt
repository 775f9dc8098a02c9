// collect: "drops the three, later list pairs move down in order, returns the pages chained again; answers the first".
ghost use Rattle.std.specs.Prelude.{◌≡◌, not, [], ◌∷◌, eqb};
ghost use Rattle.walk.specs.Finite.{any};
ghost use Rattle.memory.specs.Words.{put};
ghost use Rattle.soundness.specs.Test.{sound_test};
ghost use Rattle.rules.specs.Call;
ghost use Rattle.rules.specs.Moves.{return_all};
ghost use Rattle.rules.specs.Conditions.{child, any_mapping};
ghost use Rattle.rules.specs.Refusals.{refusal};
ghost use Rattle.rules.specs.Effects.{effect};
ghost use Rattle.rules.specs.Calls.{result as result_of, answer, after};
ghost use Rattle.answers.specs.Said.{refusal_in, said};
ghost use Rattle.threes.specs.Standing.{Standing};

use answers::{Answer, Refusal};
use pages::{IndexWidth, PhysicalPage};
use threes::lists::{drop_listed, three_place};

// Whether a word of the part s is not 0.
fn any_word(s: &[u32]) -> bool
    ensures { result ≡ any (λ w. not (eqb w 0)) s.now }
{
    s.iter().any(|w| *w != 0)
}

// 12: "page table has a mapping", of the child k and the target t.
fn any_mapping(b: IndexWidth, m: &[u32], k: PhysicalPage, t: u32) -> bool
    ensures { result ≡ any_mapping b.bits m.now k.0 t }
{
    any_word(pages::words_of(b, m, pages::page_of(b, pages::table_for(b, m, k, t))))
}

// 1 3 5 8 12
fn collect_refusal(b: IndexWidth, m: &[u32], good: bool, c: u32, t: u32) -> Result<(), Refusal>
    requires judged { good ≡ sound_test b.bits m.now }
    ensures { refusal_in result ≡ refusal b.bits m.now (Call.collect c t) }
{
    moves::child_refusal(b, m, good, &[c, t], c)?;
    let k = moves::child_of(b, m, c);
    if moves::no_three(b, m, k, t) {
        return Err(Refusal::Table);
    }
    if any_mapping(b, m, k, t) {
        return Err(Refusal::FullTable);
    }
    Ok(())
}

// The pages at v, x and y of the partition d are returned, and linked in that order: first is the page at v, second that at x.
fn return_chained(
    b: IndexWidth,
    m: &mut [u32],
    d: PhysicalPage,
    v: u32,
    x: u32,
    y: u32,
    first: PhysicalPage,
    second: PhysicalPage,
)
    ensures { m.new ≡ put b.bits (put b.bits (return_all b.bits m.old d.0 (v ∷ x ∷ y ∷ [])) first.0 0 x) second.0 0 y }
{
    moves::return_all(b, m, d, &[v, x, y]);
    pages::write_word(b, m, first, 0, x);
    pages::write_word(b, m, second, 0, y);
}

// What is needed of the list and of the caller's tables is read before anything changes. The answer is the address of the first page.
fn collect_effect(b: IndexWidth, m: &mut [u32], c: u32, t: u32) -> u32
    requires stands { Standing b.bits m.old (child b.bits m.old c) t }
    ensures { (result ≡ result_of b.bits m.old (Call.collect c t)) × (m.new ≡ effect b.bits m.old (Call.collect c t)) }
{
    let d = pages::current(b, m);
    let k = moves::child_of(b, m, c);
    let j = three_place(b, m, k, t);
    let l = pages::list(b, m, k);
    let v = pages::read_word(b, m, l, 1 + 6 * j);
    let x = pages::read_word(b, m, l, 3 + 6 * j);
    let y = pages::read_word(b, m, l, 5 + 6 * j);
    let first = pages::page_of(b, pages::mapping(b, m, d, v));
    let second = pages::page_of(b, pages::mapping(b, m, d, x));
    drop_listed(b, m, k, t, j);
    return_chained(b, m, d, v, x, y, first, second);
    v
}

// 7. The child stands at c of the caller, and t is an address of its own.
pub fn collect(b: IndexWidth, m: &mut [u32], good: bool, c: u32, t: u32) -> Answer
    requires judged { good ≡ sound_test b.bits m.old }
    ensures { (said result ≡ answer b.bits m.old (Call.collect c t)) × (m.new ≡ after b.bits m.old (Call.collect c t)) }
{
    collect_refusal(b, m, good, c, t)?;
    Ok(collect_effect(b, m, c, t))
}
