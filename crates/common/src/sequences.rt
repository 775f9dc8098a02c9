// The run of a sequence of a kernel's calls. Each call is its number and its arguments, one word each.
ghost use Rattle.std.specs.Prelude.{◌≡◌, ℕ, ◌+◌, ◌≤◌, ◌<◌, List, MatchOption, get_or, length, true};
ghost use Rattle.std.specs.List.{fold};
ghost use Rattle.common.specs.Words.{overwrite};
ghost use Rattle.common.specs.Sequence.{call_at, whole};
ghost use Rattle.common.specs.Room.{executed, next_at, replies};

// A kernel's calls, as the run of a sequence sees them.
pub trait Kernel {
    // The calls; how many arguments each has, by its number, and the greatest number; and the call of a number with its arguments.
    ghost Call: { Type 0 };

    ghost counts: { List ℕ };

    ghost most: { ℕ };

    ghost numbered: { ℕ → (ℕ → ℕ) → Call };

    // How many places the answer of a call takes, the numbers of that answer, and the memory that the call leaves.
    ghost places: { Call → ℕ };

    ghost reply_of: { List ℕ → Call → List ℕ };

    ghost after: { List ℕ → Call → List ℕ };

    // How many arguments the call of number n has, or none where no call has the number.
    fn arguments(n: u32) -> Option<usize>
        ensures { MatchOption result (most < n) (λ k. (n ≤ most) × (k ≡ get_or counts n 0)) };

    // How many places the answer of the call of number n takes.
    fn places(n: u32) -> usize
        requires { n ≤ most }
        ensures { (a : ℕ → ℕ) → result ≡ places (numbered n a) };

    // The call that stands whole at word i, its answer written from place p on, a number a place. Answers where the next answer begins.
    fn call(m: &mut [u32], ws: &[u32], i: usize, answers: &mut [u64], p: usize) -> usize
        requires i_value { whole counts most ws.now i ≡ true }
        requires room { p + places (call_at numbered ws.now i) ≤ length answers.old }
        ensures next { result ≡ p + places (call_at numbered ws.now i) }
        ensures numbers { length (reply_of m.old (call_at numbered ws.now i)) ≡ places (call_at numbered ws.now i) }
        ensures answered { answers.new ≡ overwrite answers.old p (reply_of m.old (call_at numbered ws.now i)) }
        ensures memory { m.new ≡ after m.old (call_at numbered ws.now i) };
}

// Where the words of the call at word i end, or none where no whole call stands there or its answer does not fit in `room` places.
fn end<K: Kernel>(ws: &[u32], i: usize, room: usize) -> Option<usize>
    requires { i ≤ length ws.now }
    ensures { MatchOption result (0 ≡ next_at K.counts K.most K.numbered K.places ws.now i room)
        (λ e. (e ≡ next_at K.counts K.most K.numbered K.places ws.now i room) × (0 < e)) }
{
    let n = *ws.get(i)?;
    let k = K::arguments(n)?;
    if ws.len() - i <= k || room < K::places(n) {
        return None;
    }
    Some(i + 1 + k)
}

// Runs the calls in order and writes the answer of each, as many as there is room for. Answers how many calls were run.
pub fn run<K: Kernel>(m: &mut [u32], calls: &[u32], answers: &mut [u64]) -> usize
    ensures count { result ≡ length (executed K.counts K.most K.numbered K.places calls.now answers.old) }
    ensures memory { m.new ≡ fold K.after m.old (executed K.counts K.most K.numbered K.places calls.now answers.old) }
    ensures answered { answers.new
        ≡ overwrite answers.old 0 (replies K.after K.reply_of m.old (executed K.counts K.most K.numbered K.places calls.now answers.old)) }
{
    let mut n = 0;
    let mut i = 0;
    let mut p = 0;
    while let Some(e) = end::<K>(calls, i, answers.len() - p) {
        p = K::call(m, calls, i, answers, p);
        i = e;
        n += 1;
    }
    n
}
