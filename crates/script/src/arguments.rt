// "How many arguments each call has is a fixed table by number".
ghost use Rattle.std.specs.Prelude.{◌≡◌, ◌≤◌};
ghost use Rattle.rules.specs.Replay.{argument_count, known_call};

const ARGUMENTS: [usize; 12] = [5, 1, 4, 2, 2, 3, 2, 1, 1, 0, 1, 2];

pub fn known_call(n: u32) -> bool
    ensures { result ≡ known_call n }
{
    (1..=12).contains(&n)
}

pub fn argument_count(n: u32) -> usize
    requires { (1 ≤ n) × (n ≤ 12) }
    ensures { (result ≡ argument_count n) × (result ≤ 5) }
{
    ARGUMENTS[(n - 1) as usize]
}
