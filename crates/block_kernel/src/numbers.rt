// A call by its number, with its arguments as words.
ghost use Rattle.std.specs.Prelude.{◌≡◌};
ghost use Rattle.block_kernel.specs.Called.{called, called_answer, called_words, called_after};

use block_answers::{Answer, TOLD_WORDS};
use block_calls::{telling, tells_block, untold};

// What a call by its number answers, none where no call has the number, and the six words of the block that is told, or zeros. The words are zeros where no
// call has the number too, as called_words says, so that they stand beside the answer and not in it.
#[derive(Clone, Copy)]
pub struct Numbered {
    pub called: Option<Answer>,
    pub words: [u32; TOLD_WORDS],
}

// The call of number n, 0 to 13; no other number is known. a holds its arguments; what is past them is not read.
pub fn by_number(m: &mut [u32], n: u32, a: [u32; 3]) -> Numbered
    ensures { (called result.called ≡ called_answer m.old n a)
        × (result.words ≡ called_words m.old n a)
        × (m.new ≡ called_after m.old n a) }
{
    if n > 13 {
        return Numbered {
            called: None,
            words: [0; TOLD_WORDS],
        };
    }
    if tells_block(n) {
        let t = telling(m, n, a);
        let words = t.words;
        return Numbered {
            called: Some(t.answer),
            words,
        };
    }
    Numbered {
        called: Some(untold(m, n, a)),
        words: [0; TOLD_WORDS],
    }
}
