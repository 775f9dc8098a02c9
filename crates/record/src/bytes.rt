// Bytes written over others, and words as bytes.
ghost use Rattle.std.specs.Prelude.{◌≡◌, ◌+◌, ◌≤◌, length};
ghost use Rattle.memory.specs.Words.{overwrite};
ghost use Rattle.rules.specs.Bytes.{little_endian, word_in};

// "bytes FE CA AD DE"
pub const MAGIC: [u8; 4] = [0xFE, 0xCA, 0xAD, 0xDE];

// The bytes ws stand from byte `at` on.
pub fn put_bytes(out: &mut [u8], at: usize, ws: &[u8])
    requires { at + length ws.now ≤ length out.old }
    ensures { out.new ≡ overwrite out.old at ws.now }
{
    out[at..at + ws.len()].copy_from_slice(ws);
}

// A word's four bytes, lowest first.
pub fn little_endian(x: u32) -> [u8; 4]
    ensures { result ≡ little_endian x }
{
    x.to_le_bytes()
}

// The word whose first byte stands at i.
pub fn word_in(bs: &[u8], i: usize) -> u32
    requires { i + 4 ≤ length bs.now }
    ensures { result ≡ word_in bs.now i }
{
    u32::from_le_bytes([bs[i], bs[i + 1], bs[i + 2], bs[i + 3]])
}
