// Reads the sheets of standard input, asks follow with nobody paired, and compares each answer with the expected one. A line is a case:
//
//   name;expected;words of the sheet;checks
//
// with a refusal's number, or `ok`, the parts and how many places have a band, for expected (see `build` for words, `compare` for
// checks). A case that differs is written with the number that was read, 0 for an accepted sheet. Lines are bytes, whatever they are, and end
// in a newline, the last one too. A write that fails is passed over.
#![tactic(auto)]

mod build;
mod compare;

use build::{Sheet, put_words};
use compare::read_as;

const STDIN: i32 = 0;

const STDOUT: i32 = 1;

// A text and a number after it.
fn write_with(text: &[u8], number: u32) {
    io::write_all(STDOUT, text);
    io::print_decimal(STDOUT, u64::from(number));
}

// Does the sheet of a line read as the line says?
fn agrees(line: &[u8]) -> bool {
    let mut parts = line.split(|b| *b == b';').skip(1);
    let expected = parts.next().unwrap_or(b"");
    let words = parts.next().unwrap_or(b"");
    let checks = parts.next().unwrap_or(b"");
    let mut sheet = Sheet::new();
    put_words(&mut sheet, words);
    match read_as(&sheet, expected, checks) {
        Ok(()) => true,
        Err(differs) => {
            io::write_all(STDOUT, line);
            write_with(b"\ndiffers: read as ", u32::from(differs.number()));
            io::write_all(STDOUT, b"\n");
            false
        }
    }
}

fn main() {
    let mut space = io::large_buffer();
    let size = io::read_full(STDIN, &mut space);
    let (mut agree, mut differ) = (0u32, 0u32);
    for ended in space[..size].split_inclusive(|b| *b == b'\n') {
        if let Some(line) = ended.strip_suffix(b"\n") {
            let count = if agrees(line) {
                &mut agree
            } else {
                &mut differ
            };
            tally::add(count, 1);
        }
    }
    write_with(b"cases that agree: ", agree);
    write_with(b"\ncases that differ: ", differ);
    io::write_all(STDOUT, b"\n");
}
