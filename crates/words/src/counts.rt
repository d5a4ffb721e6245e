// A count of words, and as many words.
ghost use Rattle.std.specs.Prelude.{◌≤◌, ◌<◌, ◌-◌, ◌^◌, SomeIff};
ghost use Rattle.words.specs.Words.{words};
ghost use Rattle.words.specs.Met.{counted, CountOf, Reaches};

use crate::{any_words, next_word};

// The value of a digit.
fn digit(b: u8) -> Option<usize>
    ensures { SomeIff result ((48 ≤ b) × (b ≤ 57)) (b - 48) }
{
    if b.is_ascii_digit() {
        Some(usize::from(b - b'0'))
    } else {
        None
    }
}

// The value of a word of digits that is at most `most`. It is left at the first byte that is no digit, and once ten times the value is above `most`.
// Where that is below 2 ^ 63, as the length of a text is, one digit more still fits. By `checked_mul` and `checked_add` a long count took longer.
fn count_of(word: &[u8], most: usize) -> Option<usize>
    requires { most < 2 ^ 63 }
    ensures { CountOf word.now most result }
{
    let tenth = most / 10;
    let mut value = 0;
    for b in word {
        let digit = digit(*b)?;
        if tenth < value {
            return None;
        }
        value = 10 * value + digit;
    }
    if most < value {
        return None;
    }
    Some(value)
}

// Meets a count, of decimal digits only, and as many words. No text has more words than bytes, so that a count above the bytes that follow it is
// refused before any word is walked.
pub fn counted_words(text: &[u8]) -> Option<&[u8]>
    ensures { Reaches text.now result (counted (words text.now)) }
{
    let word = next_word(text)?;
    any_words(word.rest, count_of(word.bytes, word.rest.len())?)
}
