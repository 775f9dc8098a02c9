// How often a word stands in a part of the memory.
ghost use Rattle.std.specs.Prelude.{◌≡◌, ◌≤◌, ◌<◌, length};
ghost use Rattle.walk.specs.Lists.{count};

pub fn count_of(s: &[u32], x: u32) -> u32
    requires { length s.now < 4294967296 }
    ensures { result ≡ count x s.now }
{
    let mut k: u32 = 0;
    for y in s {
        k += u32::from(x == *y);
    }
    k
}
