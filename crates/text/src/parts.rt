// Lines and words, as parts of the text.
ghost use Rattle.std.specs.Prelude.{◌≡◌, MatchOption, [], ◌+◌, ◌≤◌, ◌<◌, drop, length};
ghost use Rattle.text.specs.Text.{before, blank, split};
ghost use Rattle.text.specs.Steps;
ghost use Rattle.text.specs.Steps.{NextWord, LineAt, is_kind};

// Where a part starts and where it ends.
#[derive(Clone, Copy)]
pub struct Part {
    pub start: usize,
    pub end: usize,
}

// Where what is read of a line ends, and where the line ends.
#[derive(Clone, Copy)]
pub struct Line {
    pub read_end: usize,
    pub end: usize,
}

// How many bytes stand before the first b.
pub fn find(s: &[u8], b: u8) -> usize
    ensures { (result ≡ length (before b s.now)) × (result ≤ length s.now) }
{
    s.iter().position(|x| *x == b).unwrap_or(s.len())
}

pub fn is_blank(x: u8) -> bool
    ensures { result ≡ blank x }
{
    x == b' ' || x == b'\t' || x == b'\r'
}

// Whether x is a blank, or is none where t is false.
pub fn is_kind(t: bool, x: u8) -> bool
    ensures { result ≡ is_kind t x }
{
    is_blank(x) == t
}

// How many bytes at the front are blanks, or are none where t is false.
pub fn leading(s: &[u8], t: bool) -> usize
    ensures { (result ≡ Steps.leading t s.now) × (result ≤ length s.now) }
{
    s.iter().position(|x| !is_kind(t, *x)).unwrap_or(s.len())
}

// The first word from byte i on, where there is one.
pub fn next_word(s: &[u8], i: usize) -> Option<Part>
    requires { i ≤ length s.now }
    ensures { MatchOption result (split (drop i s.now) ≡ []) (λ p. NextWord s.now i p.start p.end × (p.start < p.end)) }
{
    let start = i + leading(&s[i..], true);
    let end = start + leading(&s[start..], false);
    if start == end {
        return None;
    }
    Some(Part { start, end })
}

// How many words there are.
pub fn count_words(s: &[u8]) -> usize
    ensures { (result ≡ length (split s.now)) × (result ≤ length s.now) }
{
    let mut n = 0;
    let mut i = 0;
    while let Some(word) = next_word(s, i) {
        n += 1;
        i = word.end;
    }
    n
}

// The line that starts at byte i: what is read of it, and where it ends.
pub fn line_at(text: &[u8], i: usize) -> Line
    requires { i < length text.now }
    ensures { LineAt text.now i result.read_end result.end }
{
    let end = i + find(&text[i..], b'\n');
    let read_end = i + find(&text[i..end], b'#');
    Line { read_end, end }
}
