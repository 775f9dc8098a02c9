// A packed answer in two halves: the refusal's number above, the answer's word below.
ghost use Rattle.std.specs.Prelude.{◌≡◌, ◌/◌, ◌^◌};

// The refusal's number, or 0. It is a number here, since C is given one (`tumashqin_format`, `tumashqin_verdict`, `tumashqin_write_record`).
pub fn upper(x: u64) -> u32
    ensures { result ≡ x / 2 ^ 32 }
{
    (x >> 32) as u32
}
