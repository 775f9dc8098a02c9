// cut: "slot of the free number n: address, block's end, rights, 1, 0, 0, its source, block, its next; that next, if any, has n as previous; block's end is
// address, its next n; answers n".
ghost use Rattle.std.specs.Prelude.{◌≡◌};
ghost use Rattle.block_memory.specs.Partition.{free_number};
ghost use Rattle.block_soundness.specs.Test.{sound_test};
ghost use Rattle.block_rules.specs.Call;
ghost use Rattle.block_rules.specs.Call.{serve};
ghost use Rattle.block_rules.specs.Conditions.{bad_cut};
ghost use Rattle.block_rules.specs.Refusals.{refusal};
ghost use Rattle.block_rules.specs.Effects.{cut_at};
ghost use Rattle.block_rules.specs.Calls.{answer, after};
ghost use Rattle.block_answers.specs.Said.{refusal_in, said};

use block_answers::{Answer, Refusal};
use block_layout::{block_of, current, end, free_number, put_slot, start};
use block_moves::block_refusal;

// 5: "address is outside the block or leaves less than 32 bytes below or above it". It is worked out in 64 bits.
fn bad_cut(m: &[u32], d: u32, b: u32, x: u32) -> bool
    ensures { result ≡ bad_cut m.now d b x }
{
    let x = u64::from(x);
    x < u64::from(start(m, d, b)) + 32 || u64::from(end(m, d, b)) < x + 32
}

// 1 3 5 8
fn cut_refusal(m: &[u32], good: bool, b: u32, x: u32) -> Result<(), Refusal>
    requires { good ≡ sound_test m.now }
    ensures { refusal_in result ≡ refusal m.now (serve (Call.cut b x)) }
{
    block_refusal(m, good, b)?;
    let d = current(m);
    if bad_cut(m, d, b, x) {
        return Err(Refusal::Piece);
    }
    if free_number(m, d) == 0 {
        return Err(Refusal::Slot);
    }
    Ok(())
}

fn cut_effect(m: &mut [u32], d: u32, b: u32, x: u32) -> u32
    ensures { (result ≡ free_number m.old d) × (m.new ≡ cut_at m.old d b x) }
{
    let n = free_number(m, d);
    let k = block_of(m, d, b);
    put_slot(
        m,
        d,
        n,
        0,
        &[x, k.end, k.rights, 1, 0, 0, k.source, b, k.next],
    );
    put_slot(m, d, k.next, 7, &[n]);
    put_slot(m, d, b, 1, &[x]);
    put_slot(m, d, b, 8, &[n]);
    n
}

pub fn cut(m: &mut [u32], good: bool, b: u32, x: u32) -> Answer
    requires { good ≡ sound_test m.old }
    ensures { (said result ≡ answer m.old (serve (Call.cut b x))) × (m.new ≡ after m.old (serve (Call.cut b x))) }
{
    cut_refusal(m, good, b, x)?;
    let d = current(m);
    Ok(cut_effect(m, d, b, x))
}
