// Input as bytes and as little-endian words.
ghost use Rattle.std.specs.Io.KnownBytes.{Consumes, IsAtEnd};
ghost use Rattle.std.specs.Io.{ReadsAtMost};
ghost use Rattle.std.specs.Prelude.{◌<◌, ◌≤◌, ◌≡◌, IfOk, IfSome, OnOk, ◌+◌, drop, length, slice_index, take};
ghost use Rattle.stdio.specs.Words.{HoldsWords, LosesWord, LosesWords, first_count, first_word};

use std::io;
use std::io::Read;

// Reads until `bytes` is full or the input ends. Answers how many bytes it read; these stand at the start of `bytes`.
pub fn read_full<R: Read>(input: &mut R, bytes: &mut [u8]) -> io::Result<usize>
    ensures bound { ReadsAtMost result bytes.new }
    ensures read { IfOk result (λ n. Consumes (R.remaining input.old) (R.remaining input.new) (take n bytes.new)) }
    ensures front { IfOk result (λ n. IfSome (R.remaining input.old) (λ bs. take n bytes.new ≡ take (length bytes.new) bs)) }
    ensures end { IfOk result (λ n. n < length bytes.new → IsAtEnd (R.remaining input.new)) }
{
    // Each read says how far it came: no range has these places.
    let mut done = 0;
    while done < bytes.len() {
        let n = input.read(&mut bytes[done..])?;
        if n == 0 {
            break;
        }
        done += n;
    }
    Ok(done)
}

// The next word of the input; a byte past its end counts as 0.
pub fn next_word<R: Read>(input: &mut R) -> io::Result<u32>
    ensures word { IfOk result (λ w. IfSome (R.remaining input.old) (λ bs. w ≡ first_word bs)) }
    ensures rest { OnOk result (LosesWord (R.remaining input.old) (R.remaining input.new)) }
{
    let mut four = [0u8; 4];
    let n = read_full(input, &mut four)?;
    four[n..].fill(0);
    Ok(u32::from_le_bytes(four))
}

// The next words of the input, as many as there is room for.
fn next_words<R: Read>(input: &mut R, words: &mut [u32]) -> io::Result<()>
    ensures words { OnOk result (IfSome (R.remaining input.old) (HoldsWords (length words.old) words.new)) }
    ensures rest { OnOk result (LosesWords (length words.old) (R.remaining input.old) (R.remaining input.new)) }
{
    for word in words {
        *word = next_word(input)?;
    }
    Ok(())
}

// The next word of the input as a count; 0 where it is above `most`.
// A usize and no Option, which would be no plainer: the input itself ends with the count 0, and a caller tests it once.
pub fn next_count<R: Read>(input: &mut R, most: usize) -> io::Result<usize>
    ensures bound { IfOk result (λ n. n ≤ most) }
    ensures count { IfOk result (λ n. IfSome (R.remaining input.old) (λ bs. n ≡ first_count most bs)) }
    ensures rest { OnOk result (LosesWord (R.remaining input.old) (R.remaining input.new)) }
{
    let n = next_word(input)? as usize;
    if most < n {
        return Ok(0);
    }
    Ok(n)
}

// The next count of the input and so many words behind it, written from the start of `words` on. Answers the count; 0 where there is no room for it.
pub fn next_part<R: Read>(input: &mut R, words: &mut [u32]) -> io::Result<usize>
    ensures bound { IfOk result (λ n. n ≤ length words.old) }
    ensures count { IfOk result (λ n. IfSome (R.remaining input.old) (λ bs. n ≡ first_count (length words.old) bs)) }
    ensures words { IfOk result (λ n. IfSome (R.remaining input.old) (λ bs. HoldsWords n words.new (drop 4 bs))) }
    ensures others { IfOk result (λ n. drop n words.new ≡ drop n words.old) }
    ensures rest { IfOk result (λ n. LosesWords (1 + n) (R.remaining input.old) (R.remaining input.new)) }
{
    let n = next_count(input, words.len())?;
    next_words(input, &mut words[0..n])?;
    Ok(n)
}
