// Builds a sheet from words:
//
//   02ff    bytes, in hexadecimal digits
//   -15     15 zeros
//   *3      three labels that differ
//   @6      six entries of joints that list all others, two to a band
ghost use Rattle.std.specs.Prelude.{◌<◌, IfSome};

use arrayvec::ArrayVec;
use samples::{put, put_labels};

// The longest sheet here has 128 joints that all list each other.
const ROOM: usize = 65536;

pub type Sheet = ArrayVec<u8, ROOM>;

// A decimal number: digits alone, and below 100,000 before the last of them. No parse, which takes a plus and is of text.
pub fn number_of(text: &[u8]) -> Option<usize>
    ensures { IfSome result (λ n. n < 1000000) }
{
    if text.is_empty() {
        return None;
    }
    let mut n = 0;
    for b in text {
        if !b.is_ascii_digit() || 100_000 <= n {
            return None;
        }
        n = 10 * n + usize::from(b - b'0');
    }
    Some(n)
}

// A hexadecimal digit as a number, 16 for a byte that is none. No to_digit, which takes capitals.
fn digit(b: u8) -> u16
    ensures { result < 17 }
{
    match b {
        b'0'..=b'9' => u16::from(b - b'0'),
        b'a'..=b'f' => u16::from(b - b'a') + 10,
        _ => 16,
    }
}

// The byte of two digits, 0 where it is none.
fn byte_of(pair: &[u8; 2]) -> u8 {
    u8::try_from(16 * digit(pair[0]) + digit(pair[1])).unwrap_or(0)
}

fn put_hex(sheet: &mut Sheet, digits: &[u8]) {
    let (pairs, _) = digits.as_chunks::<2>();
    for pair in pairs {
        put(sheet, &[byte_of(pair)]);
    }
}

// The entry at a place among those of n joints that all list each other, each in turn; zeros where there is none to list.
fn entry(n: u8, place: usize) -> [u8; 3] {
    if n < 2 {
        return [0; 3];
    }
    let others = usize::from(n) - 1;
    let a = place / others;
    // By `as`, since a number below 255 fits; try_from would have an error that cannot be.
    let before = (place % others) as u8;
    let b = if usize::from(before) < a {
        before
    } else {
        before + 1
    };
    [u8::try_from(a).unwrap_or(0), b, 1 + b / 2]
}

fn put_entries(sheet: &mut Sheet, n: u8, count: usize) {
    for place in 0..count {
        put(sheet, &entry(n, place));
    }
}

// A word of a sheet of n joints. What is no number counts as many as there is room for, and no more are made for any number.
fn put_word(sheet: &mut Sheet, n: u8, word: &[u8]) {
    let Some((kind, rest)) = word.split_first() else {
        return;
    };
    let room = sheet.remaining_capacity();
    let count = number_of(rest).map_or(room, |count| count.min(room));
    match kind {
        b'-' => {
            for _ in 0..count {
                put(sheet, &[0]);
            }
        }
        b'*' => put_labels(sheet, count),
        b'@' => put_entries(sheet, n, count),
        _ => put_hex(sheet, word),
    }
}

// The sheet of all words of a text, which begins with the count of joints.
pub fn put_words(sheet: &mut Sheet, text: &[u8]) {
    let n = text.first_chunk::<2>().map_or(0, byte_of);
    for word in text.split(|b| *b == b' ') {
        put_word(sheet, n, word);
    }
}
