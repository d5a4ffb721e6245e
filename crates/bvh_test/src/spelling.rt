// The words of a text, and the gaps between them.
use arrayvec::ArrayVec;
use samples::put;

// A word: one that is written out, or a name by its number, n and two letters.
#[derive(Clone, Copy)]
pub enum Word {
    Spelt(&'static [u8]),
    Name(u8),
}

// The words that are written out, by their kinds: a drawn number is a place among one kind's, or among all of them.
pub const KEYWORDS: [&[u8]; 10] = [
    b"HIERARCHY",
    b"ROOT",
    b"JOINT",
    b"{",
    b"}",
    b"OFFSET",
    b"CHANNELS",
    b"End",
    b"Site",
    b"MOTION",
];

// Each with how many words it counts.
pub const COUNTS: [(&[u8], u8); 6] = [
    (b"0", 0),
    (b"1", 1),
    (b"3", 3),
    (b"003", 3),
    (b"6", 6),
    (b"000000000000000000000000001", 1),
];

// Two counts above every usize, and a word that is none.
const BAD_COUNTS: [&[u8]; 3] = [b"99999999999999999999", b"18446744073709551617", b"2x"];

// What stands behind OFFSET or a count: numbers and names of channels.
pub const VALUES: [&[u8]; 3] = [b"-1.5e-3", b"12.25", b"Zrotation"];

const MISSPELT: [&[u8]; 5] = [b"root", b"END", b"JOINTS", b"MOTIO", b"{}"];

// What stands for a name: the first and the last visible byte, a drawn name's beginning, 16 bytes, 17, and four with a byte that is not visible.
pub const STRANGE_NAMES: [&[u8]; 9] = [
    b"!",
    b"~",
    b"nD",
    b"abcdefghijklmnop",
    b"abcdefghijklmnopq",
    b"n\x7f",
    b"\xc8n",
    b"n\x0bn",
    b"n\x01",
];

// No text here fills it.
pub type Text = ArrayVec<u8, 16384>;

// A word at the end of the text.
pub fn put_word(text: &mut Text, word: Word) {
    match word {
        Word::Spelt(bytes) => put(text, bytes),
        Word::Name(k) => put(text, &[b'n', 65 + k / 16, 65 + k % 16]),
    }
}

// The gap before a word, by a number: half of the gaps are a space, and nothing at the text's ends.
pub fn gap_of(x: u32, is_end: bool) -> &'static [u8] {
    match x % 8 {
        4 => b"\t",
        5 => b"\n",
        6 => b"\r\n",
        7 => b" \t\r \n\n",
        _ => if is_end { b"" } else { b" " },
    }
}

// One of 200 names. By `as`, since a number below 250 fits; try_from would have an error that cannot be.
pub fn name_of(k: usize) -> Word {
    Word::Name((50 + k % 200) as u8)
}

// One of 40 words: those above, and four names.
pub fn word_of(k: u32) -> Word {
    let place = k as usize % 40;
    let counts = COUNTS.map(|(bytes, _)| bytes);
    let mut words = KEYWORDS
        .iter()
        .chain(&counts)
        .chain(&BAD_COUNTS)
        .chain(&VALUES)
        .chain(&MISSPELT)
        .chain(&STRANGE_NAMES);
    match words.nth(place) {
        Some(bytes) => Word::Spelt(bytes),
        None => name_of(place % 36),
    }
}
