// Settles the sheet on standard input, with no choices, and prints the answer.
//
// Bytes past 65,536 are not read; no accepted sheet has so many. A read that fails ends the input, and the bytes before it are the
// sheet (none, where standard input is closed): a sheet cut short is refused, so a failure never gives another pairing. A write that
// fails ends the program.
#![tactic(auto)]

const STDIN: i32 = 0;

const STDOUT: i32 = 1;

fn main() {
    let mut sheet = io::large_buffer();
    let size = io::read_full(STDIN, &mut sheet);
    let mut text = [0u8; 4400];
    let length = listing::list_sheet(&sheet[..size], &mut text);
    io::write_all(STDOUT, &text[..length]);
}
