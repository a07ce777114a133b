// The words of a line, by their places.
ghost use Rattle.std.specs.Prelude.{◌≡◌, ◌≤◌, length};
ghost use Rattle.scenario.specs.Words.{uncommented, past_all, until_one, span_of, parts_of, words_of, word_at, same};

// Where a part of a text stands: from its first byte to before the byte at the end. No `Range` of the
// library, which cannot be copied.
#[derive(Clone, Copy)]
pub struct Span {
    pub start: usize,
    pub end: usize,
}

// The first place from a place on at which this byte stands, or the text's end. A loop over places, here and
// in `past`: `locate` calls both for each word, and `position` made lines of many words a third slower.
pub fn until(text: &[u8], from: usize, stop: u8) -> usize
    requires { from ≤ length text.now }
    ensures { result ≡ until_one stop text.now from }
{
    for i in from..text.len() {
        if text[i] == stop {
            return i;
        }
    }
    text.len()
}

// A line without its comment.
pub fn uncommented(line: &[u8]) -> &[u8]
    ensures { result.now ≡ uncommented line.now }
{
    &line[..until(line, 0, b'#')]
}

// The first place from a place on at which this byte does not stand, or the text's end. It stays beside
// `until`: each is one loop, and one search that is handed its test would be no plainer.
fn past(text: &[u8], from: usize, stop: u8) -> usize
    requires { from ≤ length text.now }
    ensures { result ≡ past_all stop text.now from }
{
    for i in from..text.len() {
        if text[i] != stop {
            return i;
        }
    }
    text.len()
}

// Where the part number k stands, from 0 on, of a text that is split at a byte: a line has words
// between spaces. Past the last part it is the empty span at the text's end.
pub fn locate(text: &[u8], k: usize, stop: u8) -> Span
    ensures { result ≡ span_of stop text.now k }
{
    let mut at: usize = 0;
    for _ in 0..k {
        let start = past(text, at, stop);
        at = until(text, start, stop);
    }
    let start = past(text, at, stop);
    let end = until(text, start, stop);
    Span { start, end }
}

// The part itself; past the last part it is empty.
pub fn part(text: &[u8], k: usize, stop: u8) -> &[u8]
    ensures { result.now ≡ word_at (parts_of stop text.now) k }
{
    let found = locate(text, k, stop);
    &text[found.start..found.end]
}

// How many words a line has.
pub fn count_words(line: &[u8]) -> usize
    ensures { result ≡ length (words_of line.now) }
{
    line.split(|byte| *byte == b' ')
        .filter(|word| !word.is_empty())
        .count()
}

// The word number k of a line, from 0 on; past the last it is empty.
pub fn word(line: &[u8], k: usize) -> &[u8]
    ensures { result.now ≡ word_at (words_of line.now) k }
{
    part(line, k, b' ')
}

// Whether two words are the same. It takes a literal as well, which is an array and so no side of `==`.
pub fn same(one: &[u8], other: &[u8]) -> bool
    ensures { result ≡ same one.now other.now }
{
    one == other
}
