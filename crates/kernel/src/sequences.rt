// The run of a sequence of calls. Each call is its number and its arguments, one word each.
ghost use Rattle.rules.specs.Call.{Call};
ghost use Rattle.rules.specs.Editions.{after};
ghost use Rattle.kernel.specs.Sequence.{counts, numbered};
ghost use Rattle.kernel.specs.Room.{places, reply_of};
ghost use Rattle.kernel.specs.Ran.{Ran};

use crate::replies;
use common::sequences;
use common::sequences::Kernel;

// "How many arguments each call has is a fixed table": format's number is 0, and it has the edition. Notify is 13, dispatch 14, resume 15.
const COUNTS: [usize; 16] = [1, 5, 1, 4, 2, 2, 3, 2, 1, 1, 0, 1, 2, 11, 1, 2];

// The page kernel, as the run of a sequence sees it.
struct Pages;

impl Kernel for Pages {
    ghost Call = { Call };

    ghost counts = { counts };

    ghost most = { 15 };

    ghost numbered = { numbered };

    ghost places = { places };

    ghost reply_of = { reply_of };

    ghost after = { after };

    fn arguments(n: u32) -> Option<usize> {
        COUNTS.get(n as usize).copied()
    }

    // Resume's answer has eleven words beside.
    fn places(n: u32) -> usize {
        if n == 15 { 12 } else { 1 }
    }

    fn call(m: &mut [u32], ws: &[u32], i: usize, answers: &mut [u64], p: usize) -> usize {
        replies::call(m, ws, i, answers, p)
    }
}

// Runs the calls in order and writes the answer of each, as many as there is room for: the packed answer, and behind that of a resume its eleven words.
// Answers how many calls were run.
pub fn run(m: &mut [u32], calls: &[u32], answers: &mut [u64]) -> usize
    ensures { Ran calls.now m.old m.new answers.old answers.new result }
{
    sequences::run::<Pages>(m, calls, answers)
}
