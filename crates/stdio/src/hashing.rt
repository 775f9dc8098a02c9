// A hash over all words of a memory, or over bytes: FNV-1a with 32 bits, a word or a byte at a time.

ghost use Rattle.std.specs.Prelude.{◌≡◌};
ghost use Rattle.std.specs.Iterator.{IsFinite};
ghost use Rattle.std.specs.Iterator.Runs.{WholeRun};
ghost use Rattle.stdio.specs.Hash.{hashed, mixed};

// One step: exclusive or, then times the prime, in 32 bits.
fn mixed(h: u32, x: u32) -> u32
    ensures { result ≡ mixed h x }
{
    (h ^ x).wrapping_mul(16777619)
}

// The hash of the words that `words` yields.
pub fn hash_all<I: Iterator<Item = u32>>(words: I) -> u32
    requires can { I.can_next words }
    requires finite { IsFinite (I.remaining words) }
    ensures { WholeRun I.next_gives words (λ p. result ≡ hashed p.items) }
{
    words.fold(2166136261, mixed)
}

// The hash of a memory's words.
pub fn hash(m: &[u32]) -> u32
    ensures { result ≡ hashed m.now }
{
    hash_all(m.iter().copied())
}

// The hash of bytes.
pub fn hash_bytes(bytes: &[u8]) -> u32
    ensures { result ≡ hashed bytes.now }
{
    hash_all(bytes.iter().map(|byte| u32::from(*byte)))
}
