// What a call answers: its word, or the refusal; and the same as one number.
ghost use Rattle.std.specs.Prelude.{◌≡◌, ℕ};
ghost use Rattle.common.specs.Packed.{packed, said};

// The refusals of a kernel: each has its number.
pub trait HasNumber {
    ghost number: { Self → ℕ };

    fn number(self) -> u32
        ensures { result ≡ number self };
}

// The word of a call that is done, or the refusal's number above 32 zeros.
pub fn pack<R: HasNumber>(answer: Result<u32, R>) -> u64
    ensures { result ≡ packed (said R.number answer) }
{
    match answer {
        Ok(word) => u64::from(word),
        Err(refusal) => u64::from(refusal.number()) << 32,
    }
}
