// The run of a sequence of the block kernel's calls. Each call is its number and its arguments, one word each.
ghost use Rattle.std.specs.Prelude.{◌≡◌, true, ◌+◌, ◌≤◌, length};
ghost use Rattle.common.specs.Words.{overwrite};
ghost use Rattle.block_rules.specs.Call.{Call};
ghost use Rattle.block_rules.specs.Calls.{after};
ghost use Rattle.block_sequences.specs.Numbers.{counts, most, numbered};
ghost use Rattle.block_sequences.specs.Replies.{call_at, whole, reply_of, places};
ghost use Rattle.block_sequences.specs.Ran.{Ran};

use block_answers::{TOLD_WORDS, pack};
use block_calls::{telling, tells_block, untold};
use common::sequences::Kernel;
use common::{read, sequences, write_words};

// "How many arguments each call has is a fixed table" (document 01), by the call's number.
const COUNTS: [usize; 14] = [0, 1, 1, 2, 1, 3, 2, 2, 2, 3, 2, 2, 1, 0];

// The call that stands whole at word i, its answer written from place p on. Answers where the next answer begins.
fn call(m: &mut [u32], ws: &[u32], i: usize, answers: &mut [u64], p: usize) -> usize
    requires i_value { whole ws.now i ≡ true }
    requires room { p + places (call_at ws.now i) ≤ length answers.old }
    ensures { (result ≡ p + places (call_at ws.now i))
        × (answers.new ≡ overwrite answers.old p (reply_of m.old (call_at ws.now i)))
        × (m.new ≡ after m.old (call_at ws.now i)) }
{
    let n = read(ws, i);
    let a = [read(ws, i + 1), read(ws, i + 2), read(ws, i + 3)];
    if !tells_block(n) {
        answers[p] = pack(untold(m, n, a));
        return p + 1;
    }
    let t = telling(m, n, a);
    let x = t.answer;
    let words = t.words;
    answers[p] = pack(x);
    write_words(answers, p + 1, &words);
    p + 1 + TOLD_WORDS
}

// The block kernel, as the run of a sequence sees it.
struct Blocks;

impl Kernel for Blocks {
    ghost Call = { Call };

    ghost counts = { counts };

    ghost most = { most };

    ghost numbered = { numbered };

    ghost places = { places };

    ghost reply_of = { reply_of };

    ghost after = { after };

    fn arguments(n: u32) -> Option<usize> {
        COUNTS.get(n as usize).copied()
    }

    // Read enabled's and find's answers have six words beside.
    fn places(n: u32) -> usize {
        if tells_block(n) { 1 + TOLD_WORDS } else { 1 }
    }

    fn call(m: &mut [u32], ws: &[u32], i: usize, answers: &mut [u64], p: usize) -> usize {
        call(m, ws, i, answers, p)
    }
}

// Runs the calls in order and writes the answer of each, as many as there is room for: the packed answer, and behind that of read enabled and of find the six
// words. Answers how many calls were run.
pub fn run(m: &mut [u32], calls: &[u32], answers: &mut [u64]) -> usize
    ensures { Ran calls.now m.old m.new answers.old answers.new result }
{
    sequences::run::<Blocks>(m, calls, answers)
}
