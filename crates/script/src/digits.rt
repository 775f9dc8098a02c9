// Bytes and numbers, written one behind the other.
ghost use Rattle.std.specs.Prelude.{◌+◌, ◌≤◌, length};
ghost use Rattle.rules.specs.Replay.{decimal};
ghost use Rattle.script.specs.Lines.{Put};

use itoa::Buffer;
use record::put_bytes;

// The bytes ws stand from byte `at` on; the byte behind them is returned.
pub fn put(out: &mut [u8], at: usize, ws: &[u8]) -> usize
    requires { at + length ws.now ≤ length out.old }
    ensures { Put out.old out.new at result ws.now }
{
    put_bytes(out, at, ws);
    at + ws.len()
}

// The digits of x stand from byte `at` on.
pub fn put_decimal(out: &mut [u8], at: usize, x: u32) -> usize
    requires { at + length (decimal x) ≤ length out.old }
    ensures { Put out.old out.new at result (decimal x) }
{
    put(out, at, Buffer::new().format(x).as_bytes())
}
