// Tries check: row j of document 01, some refusals, and every vector of partner bytes for random sheets of up to 6 joints,
// beside a reference written straight from the definition; and the number of every pair of 128 joints, counted one after another.
#![tactic(auto)]

ghost use Rattle.std.specs.Prelude.{◌<◌};

use offered::check;
use reference::{NONE, Pairing, worth};
use samples::{
    Bands, Joints, LongSheet, Sheet, Style, drawn_sheet, is_one_sided, long_labels, put, sheet_of,
};
use std::{fmt, io};
use tally::{Comparisons, add};

const ROUNDS: u32 = 140;

// Pairings offered to row g's sheet.
const OFFERED: [(&str, &[u8]); 7] = [
    ("row j", &[1, 0, 255, 255]),
    ("row g", &[1, 0, 3, 2]),
    ("a byte too many", &[1, 0, 3, 2, 255]),
    ("a byte too few", &[1, 0, 3]),
    ("no joint", &[1, 0, 255, 4]),
    ("not symmetric", &[1, 2, 1, 255]),
    ("not listed", &[2, 255, 0, 255]),
];

// The bands of row g: 0: 1 3; 1: 2 0; 2: 3 1; 3: 0 2.
const ROW_G: Bands = [
    [0, 1, 0, 2, 0, 0, 0, 0],
    [2, 0, 1, 0, 0, 0, 0, 0],
    [0, 2, 0, 1, 0, 0, 0, 0],
    [1, 0, 2, 0, 0, 0, 0, 0],
    [0; 8],
    [0; 8],
    [0; 8],
    [0; 8],
];

// The number of the lowest pair that blocks, None where nobody does; or a refusal. Refusals are the documents' numbers, and not the library's
// names, so that a wrong number there is seen.
type Answer = Result<Option<u32>, u8>;

#[derive(Default, Drop)]
struct Counts {
    comparisons: Comparisons,
    // Vectors that held, were refused, were blocked.
    held: u32,
    refused: u32,
    blocked: u32,
    sheets: u32,
    // Sheets with an entry that is not returned.
    one_sided: u32,
    // Pairs of 128 joints.
    pairs: u32,
}

impl Counts {
    fn note(&mut self, said: Answer) {
        match said {
            Ok(None) => add(&mut self.held, 1),
            Ok(Some(_)) => add(&mut self.blocked, 1),
            Err(_) => add(&mut self.refused, 1),
        }
    }
}

impl fmt::Display for Counts {
    fn fmt<W: fmt::Write>(&self, f: &mut fmt::Formatter<W>) -> fmt::Result {
        let (held, refused, blocked) = (self.held, self.refused, self.blocked);
        writeln!(
            f,
            "vectors that held, were refused, were blocked: {held} {refused} {blocked}"
        )?;
        writeln!(
            f,
            "sheets, with an entry that is not returned: {} {}",
            self.sheets, self.one_sided
        )?;
        write!(
            f,
            "pairs of 128 joints, numbered one after another: {}",
            self.pairs
        )
    }
}

// What check answers.
fn checked(sheet: &[u8], pairing: &[u8]) -> Answer {
    check(sheet, pairing).map_err(u8::from)
}

// An answer as one number, as the printed lines have it.
fn number_of(said: Answer) -> u32 {
    match said {
        Ok(None) => 500,
        Ok(Some(number)) => number.wrapping_add(1000),
        Err(number) => u32::from(number),
    }
}

// The digits of v to the base 7, lowest first, with 255 for 6; 255 past the first n. In skeleton_test each digit has a base of its own, so the
// loops stay apart. By `as`, since a digit below 6 fits; try_from would have an error that cannot be.
fn vector(v: u32, n: Joints) -> Pairing {
    let mut m = [NONE; 8];
    let mut rest = v;
    for p in &mut m[..n.count] {
        let digit = rest % 7;
        rest /= 7;
        if digit < 6 {
            *p = digit as u8;
        }
    }
    m
}

// Compares check with the reference on every vector for a sheet, each byte one of 0 to 5 and 255.
fn try_vectors(counts: &mut Counts, round: u32, sheet: &Sheet) {
    let n = sheet.n;
    for v in 0..7u32.pow(n.count as u32) {
        let m = vector(v, n);
        let said = checked(&sheet.bytes, &m[..n.count]);
        counts.note(said);
        let agrees = said == worth(&sheet.bands, &m);
        counts.comparisons.compare("the verdict", round, agrees);
    }
}

// Three times out of four two joints list each other, each in a band from 1 to 3; on two sheets of three some do not list in return.
fn style(round: u32) -> Style {
    Style {
        skip: 1,
        lone: if round % 3 == 0 { 0 } else { 3 },
        width: 2,
        turn: 0,
    }
}

// Random sheets of 0 to 6 joints.
fn try_rounds(counts: &mut Counts) {
    for round in 0..ROUNDS {
        let n = Joints {
            count: (round % 7) as usize,
        };
        let sheet = drawn_sheet(n, 61 * round, style(round));
        add(&mut counts.sheets, 1);
        add(&mut counts.one_sided, u32::from(is_one_sided(&sheet.bands)));
        try_vectors(counts, round, &sheet);
    }
}

// The sheet of 128 joints with two entries: a and b list each other.
fn sheet_of_pair(labels: &LongSheet, a: usize, b: usize) -> LongSheet
    requires { (a < 256) × (b < 256) }
{
    let mut sheet = LongSheet::new();
    put(&mut sheet, labels);
    let (a, b) = (a as u8, b as u8);
    put(&mut sheet, &[2, 0, a, b, 1, b, a, 1]);
    sheet
}

// Every pair of 128 joints: by the higher joint, then by the lower. It blocks where nobody is paired, and its number is how many pairs came
// before it.
fn try_pairs(counts: &mut Counts) {
    let labels = long_labels(128);
    for b in 0..128 {
        for a in 0..b {
            let said = checked(&sheet_of_pair(&labels, a, b), &[NONE; 128]);
            let before = counts.pairs;
            add(&mut counts.pairs, 1);
            let agrees = said == Ok(Some(before));
            counts
                .comparisons
                .compare("the number of a pair", before, agrees);
        }
    }
}

fn run(rt: &impl Print) -> io::Result<()> {
    let mut counts = Counts::default();
    try_rounds(&mut counts);
    try_pairs(&mut counts);
    println!(rt; "{}", counts.comparisons)?;
    println!(rt;
        "answers (500 holds, a refusal's number, 1000 and the number of the lowest pair that blocks)"
    )?;
    let sheet = sheet_of(Joints { count: 4 }, ROW_G);
    for (name, pairing) in OFFERED {
        println!(rt; "{name}: {}", number_of(checked(&sheet.bytes, pairing)))?;
    }
    println!(rt; "an empty sheet: {}", number_of(checked(b"", b"\x01")))?;
    println!(rt; "{counts}")
}

// A write that fails ends the print, and is passed over: it says nothing of what was compared.
fn main(rt: HostRuntime) {
    let _ = run(&rt);
}
