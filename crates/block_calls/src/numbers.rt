// A call by its number, with its arguments as words: those that tell a block apart from the others.
ghost use Rattle.std.specs.Prelude.{◌≡◌, true, false, ◌≤◌, get_or};
ghost use Rattle.block_rules.specs.Calls.{answer, told, after};
ghost use Rattle.block_answers.specs.Said.{said};
ghost use Rattle.block_sequences.specs.Numbers.{numbered, tells_block};

use crate::calls;
use block_answers::{Answer, Told};

// Whether the call of number n tells a block: 10 and 11, read enabled and find.
pub fn tells_block(n: u32) -> bool
    ensures { result ≡ tells_block n }
{
    n == 10 || n == 11
}

// The call of number n, with its arguments in a, where it tells no block. The number stays one: sequences and by_number of block_kernel give it so, and an enum
// between would take a second match.
pub fn untold(m: &mut [u32], n: u32, a: [u32; 3]) -> Answer
    requires n_bound { n ≤ 13 }
    requires other { tells_block n ≡ false }
    ensures { (said result ≡ answer m.old (numbered n (λ j. get_or a j 0)))
        × (m.new ≡ after m.old (numbered n (λ j. get_or a j 0))) }
{
    match n {
        0 => calls::format(m),
        1 => calls::create(m, a[0]),
        2 => calls::delete(m, a[0]),
        3 => calls::prepare(m, a[0], a[1]),
        4 => calls::collect(m, a[0]),
        5 => calls::add(m, a[0], a[1], a[2]),
        6 => calls::remove(m, a[0], a[1]),
        7 => calls::cut(m, a[0], a[1]),
        8 => calls::merge(m, a[0], a[1]),
        9 => calls::enable(m, a[0], a[1], a[2]),
        12 => calls::enter(m, a[0]),
        _ => calls::leave(m),
    }
}

// The same where it tells one.
pub fn telling(m: &[u32], n: u32, a: [u32; 3]) -> Told
    requires { tells_block n ≡ true }
    ensures { (said result.answer ≡ answer m.now (numbered n (λ j. get_or a j 0)))
        × (result.words ≡ told m.now (numbered n (λ j. get_or a j 0)))
        × (m.now ≡ after m.now (numbered n (λ j. get_or a j 0))) }
{
    if n == 10 {
        return calls::read_enabled(m, a[0], a[1]);
    }
    calls::find(m, a[0], a[1])
}
