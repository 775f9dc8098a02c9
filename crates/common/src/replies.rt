// The words that a call answers beside, written among the answers of a sequence.
ghost use Rattle.std.specs.Prelude.{◌≡◌, ◌+◌, ◌≤◌, length};
ghost use Rattle.common.specs.Words.{overwrite};

// Writes the words from place p on.
pub fn write_words(answers: &mut [u64], p: usize, words: &[u32])
    requires { p + length words.now ≤ length answers.old }
    ensures { answers.new ≡ overwrite answers.old p words.now }
{
    for k in 0..words.len() {
        answers[p + k] = u64::from(words[k]);
    }
}
