// A call by its number, with its arguments as words: format and document 01's.
ghost use Rattle.std.specs.Prelude.{◌≡◌, ◌≤◌, get_or};
ghost use Rattle.rules.specs.Editions.{answer, after};
ghost use Rattle.answers.specs.Said.{said};
ghost use Rattle.calls.specs.Numbers.{numbered};

use crate::calls;
use answers::Answer;

// The call of number n, with its arguments in a. The numbers are no enum: they are document 01's, words by which C and a sequence name a call (`numbered`).
pub fn numbered_call(m: &mut [u32], n: u32, a: [u32; 5]) -> Answer
    requires { n ≤ 12 }
    ensures { (said result ≡ answer m.old (numbered n (λ j. get_or a j 0)))
        × (m.new ≡ after m.old (numbered n (λ j. get_or a j 0))) }
{
    let [first, second, third, fourth, _] = a;
    match n {
        0 => calls::format(m, first),
        1 => calls::create_partition(m, a),
        2 => calls::delete_partition(m, first),
        3 => calls::add_vaddr(m, first, second, third, fourth),
        4 => calls::remove_vaddr(m, first, second),
        5 => calls::page_count(m, first, second),
        6 => calls::prepare(m, first, second, third),
        7 => calls::collect(m, first, second),
        8 => calls::mapped_in_child(m, first),
        9 => calls::enter(m, first),
        10 => calls::leave(m),
        11 => calls::load(m, first),
        _ => calls::store(m, first, second),
    }
}
