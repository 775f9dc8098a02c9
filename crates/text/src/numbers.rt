// "A number is one to ten decimal digits with a value below 2^32".
ghost use Rattle.std.specs.Prelude.{◌≡◌, true, ◌≤◌, length};
ghost use Rattle.text.specs.Text.{split};
ghost use Rattle.text.specs.Numbers;
ghost use Rattle.text.specs.Numbers.{is_digit, all_digits, is_number, all_numbers};

use crate::parts::next_word;

pub fn is_digit(x: u8) -> bool
    ensures { result ≡ is_digit x }
{
    x.is_ascii_digit()
}

pub fn all_digits(w: &[u8]) -> bool
    ensures { result ≡ all_digits w.now }
{
    w.iter().all(|x| is_digit(*x))
}

// The value of ten digits or fewer.
pub fn value(w: &[u8]) -> u64
    requires { (length w.now ≤ 10) × (all_digits w.now ≡ true) }
    ensures { result ≡ Numbers.number w.now }
{
    let mut v = 0;
    for x in w {
        v = 10 * v + u64::from(*x - b'0');
    }
    v
}

pub fn is_number(w: &[u8]) -> bool
    ensures { result ≡ is_number w.now }
{
    if w.len() < 1 {
        return false;
    }
    if w.len() > 10 {
        return false;
    }
    all_digits(w) && value(w) < 4294967296
}

pub fn number(w: &[u8]) -> u32
    requires { is_number w.now ≡ true }
    ensures { result ≡ Numbers.number w.now }
{
    value(w) as u32
}

// Whether all words are numbers.
pub fn all_numbers(s: &[u8]) -> bool
    ensures { result ≡ all_numbers (split s.now) }
{
    let mut i = 0;
    while let Some(word) = next_word(s, i) {
        if !is_number(&s[word.start..word.end]) {
            return false;
        }
        i = word.end;
    }
    true
}
