// The words of a memory. Reading past the end gives 0 and writing there does nothing, so no index needs a bound.
ghost use Rattle.std.specs.Prelude.{◌≡◌, get_or, set};

// The word at index i, or 0 past the end.
pub fn read(m: &[u32], i: usize) -> u32
    ensures { result ≡ get_or m.now i 0 }
{
    m.get(i).copied().unwrap_or(0)
}

// Stores x at index i; past the end it does nothing. The index is compared: the contract of a slice's `get_mut` doesn't say what the slice is after a write.
pub fn write(m: &mut [u32], i: usize, x: u32)
    ensures { m.new ≡ set m.old i x }
{
    if i < m.len() {
        m[i] = x;
    }
}
