// One call of a sequence: its arguments are words, and its answer is one number, or twelve of a resume. Beyond the twelve (numbers) 13 is notify,
// 14 dispatch and 15 resume.
ghost use Rattle.std.specs.Prelude.{◌≡◌, ◌≢◌, true, ◌+◌, ◌≤◌, ◌<◌, length, get_or};
ghost use Rattle.memory.specs.Words.{overwrite};
ghost use Rattle.rules.specs.Editions.{answer, after};
ghost use Rattle.answers.specs.Said.{said};
ghost use Rattle.kernel.specs.Sequence.{five, eight, call_at, whole};
ghost use Rattle.kernel.specs.Room.{reply_of, places};

use answers::{Answer, pack};
use calls::numbered_call;
use common::write_words;
use resuming::Resumed;
use std::array;

// The five words behind word i: no call of document 01 has more arguments.
fn arguments(ws: &[u32], i: usize) -> [u32; 5]
    requires { i < length ws.now }
    ensures { result ≡ five ws.now i }
{
    array::from_fn(|j| pages::read(ws, i + 1 + j))
}

// The registers of the notify at word i, behind target, eip and eflags.
fn registers(ws: &[u32], i: usize) -> [u32; 8]
    requires { i < length ws.now }
    ensures { result ≡ eight ws.now i }
{
    array::from_fn(|j| pages::read(ws, i + 4 + j))
}

// The call that stands whole at word i and is no resume.
fn single(m: &mut [u32], ws: &[u32], i: usize) -> Answer
    requires i_value { whole ws.now i ≡ true }
    requires other { get_or ws.now i 0 ≢ 15 }
    ensures { (said result ≡ answer m.old (call_at ws.now i))
        × (m.new ≡ after m.old (call_at ws.now i)) }
{
    let n = pages::read(ws, i);
    let a = arguments(ws, i);
    match n {
        0..=12 => numbered_call(m, n, a),
        13 => calls::notify(m, a[0], a[1], a[2], registers(ws, i)),
        _ => calls::dispatch(m, a[0]),
    }
}

// The call that stands whole at word i, its answer written from place p on. Answers where the next answer begins.
pub fn call(m: &mut [u32], ws: &[u32], i: usize, answers: &mut [u64], p: usize) -> usize
    requires i_value { whole ws.now i ≡ true }
    requires room { p + places (call_at ws.now i) ≤ length answers.old }
    ensures { (result ≡ p + places (call_at ws.now i))
        × (answers.new ≡ overwrite answers.old p (reply_of m.old (call_at ws.now i)))
        × (m.new ≡ after m.old (call_at ws.now i)) }
{
    if pages::read(ws, i) != 15 {
        answers[p] = pack(single(m, ws, i));
        return p + 1;
    }
    let Resumed { answer, words } = calls::resume(
        m,
        pages::read(ws, i + 1),
        pages::read(ws, i + 2),
    );
    answers[p] = pack(answer);
    write_words(answers, p + 1, &words);
    p + 12
}
