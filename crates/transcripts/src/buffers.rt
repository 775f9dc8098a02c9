// Room for a transcript, as `replay` takes it: an array with a length beside it, since fixed memory without a heap can't fail.
ghost use Rattle.std.specs.Prelude.{◌≡◌, length};

// No transcript is longer.
pub fn transcript_buffer() -> [u8; 32768]
    ensures { 32768 ≡ length result }
{
    [0; 32768]
}
