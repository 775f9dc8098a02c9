// Buffers for a program that assembles: arrays with a length beside them, since fixed memory without a heap can't fail.
ghost use Rattle.std.specs.Prelude.{◌≡◌, length};

// The longest text, and one byte more: input that is longer still is too long as well.
pub fn text_buffer() -> [u8; 65537]
    ensures { 65537 ≡ length result }
{
    [0; 65537]
}

// The longest script.
pub fn script_buffer() -> [u8; 4096]
    ensures { 4096 ≡ length result }
{
    [0; 4096]
}

// A message.
pub fn message_buffer() -> [u8; 64]
    ensures { 64 ≡ length result }
{
    [0; 64]
}
