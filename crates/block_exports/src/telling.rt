// The two calls that tell a block, which change no word. "To tell a block is to answer 1 ..; where nothing is there, none, the answer is 0": the six words are
// written to the start of `out`, as many as it has room for; zeros for none and where the call is refused. Words past the sixth stay.
ghost use Rattle.std.specs.Prelude.{◌≡◌};
ghost use Rattle.common.specs.Packed.{packed};
ghost use Rattle.common.specs.Words.{overwrite};
ghost use Rattle.block_rules.specs.Call;
ghost use Rattle.block_rules.specs.Call.{serve};
ghost use Rattle.block_rules.specs.Calls.{answer, told, after};

use block_kernel::pack;

// 10.
#[unsafe(no_mangle)]
pub extern "C" fn tumashqin_block_read_enabled(
    words: &[u32],
    partition: u32,
    entry: u32,
    out: &mut [u32],
) -> u64
    ensures { (result ≡ packed (answer words.now (serve (Call.read_enabled partition entry))))
        × (out.new ≡ overwrite out.old 0 (told words.now (serve (Call.read_enabled partition entry))))
        × (words.now ≡ after words.now (serve (Call.read_enabled partition entry))) }
{
    let enabled = block_kernel::read_enabled(words, partition, entry);
    let answered = enabled.answer;
    let six = enabled.words;
    common::copy(out, &six);
    pack(answered)
}

// 11.
#[unsafe(no_mangle)]
pub extern "C" fn tumashqin_block_find(
    words: &[u32],
    partition: u32,
    address: u32,
    out: &mut [u32],
) -> u64
    ensures { (result ≡ packed (answer words.now (serve (Call.find partition address))))
        × (out.new ≡ overwrite out.old 0 (told words.now (serve (Call.find partition address))))
        × (words.now ≡ after words.now (serve (Call.find partition address))) }
{
    let found = block_kernel::find(words, partition, address);
    let answered = found.answer;
    let six = found.words;
    common::copy(out, &six);
    pack(answered)
}
