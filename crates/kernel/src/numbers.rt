// A call by its number, with its arguments as words: format and document 01's.
ghost use Rattle.std.specs.Prelude.{◌≡◌};
ghost use Rattle.kernel.specs.Called.{called, called_answer, called_after};

use answers::Answer;
use calls::numbered_call;

// The call of number n: 0 is format, 1 to 12 are document 01's, and no other number is known: None. a holds its arguments; what is past them changes nothing.
pub fn by_number(m: &mut [u32], n: u32, a: [u32; 5]) -> Option<Answer>
    ensures { (called result ≡ called_answer m.old n a) × (m.new ≡ called_after m.old n a) }
{
    if n > 12 {
        return None;
    }
    Some(numbered_call(m, n, a))
}
