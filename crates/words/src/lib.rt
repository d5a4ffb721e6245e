// The words of a text, met one after the other. For the crates above, which prove what they require.
#![tactic(auto)]

mod counts;

ghost use Rattle.std.specs.Prelude.{◌≡◌, true, false, ℕ, ◌<◌, ◌≤◌, length, slice_index};
ghost use Rattle.words.specs.Words.{is_gap, run, words};
ghost use Rattle.words.specs.Met.{keyword, any_words, Next, Reaches};

pub use counts::counted_words;

// A word of a text, and what follows it there.
#[derive(Clone, Copy)]
pub struct Word<'a> {
    pub bytes: &'a [u8],
    pub rest: &'a [u8],
}

#[tactic(auto, unfolding(crate::specs::Words::is_gap))]
fn is_gap(b: u8) -> bool
    ensures { result ≡ is_gap b }
{
    // by `==` and no `matches!`, for speed: the compiler makes one test of these, by which long words are read in half the time
    b == b' ' || b == b'\t' || b == b'\n' || b == b'\r'
}

// How many gaps the text begins with. This, `word_length` and `visible_run` of sections are each one call of the library's already: a function of
// a test for all would be that call again.
fn gaps(text: &[u8]) -> usize
    ensures within { result ≤ length text.now }
    ensures before { (i : ℕ) → i < result → is_gap (slice_index text.now i) ≡ true }
    ensures behind { result < length text.now → is_gap (slice_index text.now result) ≡ false }
{
    text.iter().position(|b| !is_gap(*b)).unwrap_or(text.len())
}

// How many bytes the word has that the text begins with.
fn word_length(text: &[u8]) -> usize
    ensures value { result ≡ length (run text.now) }
    ensures within { result ≤ length text.now }
{
    text.iter().position(|b| is_gap(*b)).unwrap_or(text.len())
}

// The next word, behind gaps.
pub fn next_word(text: &[u8]) -> Option<Word<'_>>
    ensures { Next text.now result }
{
    let begun = &text[gaps(text)..];
    if begun.is_empty() {
        return None;
    }
    let (bytes, rest) = begun.split_at(word_length(begun));
    Some(Word { bytes, rest })
}

// Meets a word that must stand there. What follows it is left.
pub fn keyword<'a>(text: &'a [u8], key: &[u8]) -> Option<&'a [u8]>
    ensures { Reaches text.now result (keyword key.now (words text.now)) }
{
    let word = next_word(text)?;
    if word.bytes == key {
        Some(word.rest)
    } else {
        None
    }
}

// Meets so many words, whatever they are.
pub fn any_words(text: &[u8], count: usize) -> Option<&[u8]>
    ensures { Reaches text.now result (any_words count (words text.now)) }
{
    let mut rest = text;
    for _ in 0..count {
        rest = next_word(rest)?.rest;
    }
    Some(rest)
}
