// The chain of pages that prepare takes: "word 0 of a page holds the next page's address, the third's is 0".
ghost use Rattle.std.specs.Prelude.{◌≡◌};
ghost use Rattle.rules.specs.Row.{first};
ghost use Rattle.rules.specs.Conditions;
ghost use Rattle.rules.specs.Conditions.{in_chain, chain};
ghost use Rattle.answers.specs.Said.{refusal_in};

use answers::Refusal;
use pages::IndexWidth;

// Word 0 of the caller's page at v.
pub fn link(b: IndexWidth, m: &[u32], v: u32) -> u32
    ensures { result ≡ Conditions.link b.bits m.now v }
{
    let w = pages::mapping(b, m, pages::current(b, m), v);
    pages::read_word(b, m, pages::page_of(b, w), 0)
}

// 11, 7, 6 of the page at v, behind the pages of the chain before it.
fn linked_refusal(b: IndexWidth, m: &[u32], before: &[u32], v: u32) -> Result<(), Refusal>
    ensures { refusal_in result ≡ first (in_chain b.bits m.now before.now v) }
{
    if pages::bad_page(b, v) || before.contains(&v) {
        return Err(Refusal::Chain);
    }
    if moves::not_in_hand(b, m, v) {
        return Err(Refusal::Hand);
    }
    if moves::lacks(b, 3, m, v) {
        return Err(Refusal::Rights);
    }
    Ok(())
}

// "For each page in turn: 11, 7, 6; then 11 if the third's word 0 isn't 0." A page's link is read only once the page has passed.
pub fn chain_refusal(b: IndexWidth, m: &[u32], p: u32) -> Result<(), Refusal>
    ensures { refusal_in result ≡ first (chain b.bits m.now p) }
{
    linked_refusal(b, m, &[], p)?;
    let q = link(b, m, p);
    linked_refusal(b, m, &[p], q)?;
    let s = link(b, m, q);
    linked_refusal(b, m, &[p, q], s)?;
    if link(b, m, s) != 0 {
        return Err(Refusal::Chain);
    }
    Ok(())
}
