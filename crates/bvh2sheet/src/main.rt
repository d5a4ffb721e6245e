// Reads a BVH text on standard input and writes the sheet of its hierarchy to standard output; or it writes nothing there, and `refused` with a
// number to standard error.
//
// At most 131,072 bytes are read. Where more follow, or a read fails, the text is cut short: a mark stands at the cut, behind which a hierarchy
// that MOTION has not ended is refused with 19. So what passes is the hierarchy of the whole input, however this goes on.
#![tactic(auto)]

ghost use Rattle.std.specs.Prelude.{◌≡◌, ◌<◌, ◌≤◌, length, take};
ghost use Rattle.io.specs.Counts.{IsPrefixLen};
ghost use Rattle.bvh2sheet.specs.Cut.{closed};
ghost use Rattle.bvh2sheet.specs.Said.{refused_line};
ghost use Rattle.refusals.specs.Numbers.{number_of};

use io::{read_full, write_all};
use refusals::Refusal;
use std::io::Read;
use writing::Writer;

const STDIN: i32 = 0;

const STDOUT: i32 = 1;

const STDERR: i32 = 2;

// Puts a mark behind the bytes that were read, unless the input ended there. Returns how many bytes the text has then: a buffer and a size, as
// crate io fills it.
fn close(text: &mut [u8], size: usize, ended: bool) -> usize
    requires { size < length text.old }
    ensures prefix_len { IsPrefixLen result text.new }
    ensures text_after { take result text.new ≡ closed (take size text.old) ended }
{
    if ended {
        return size;
    }
    text[size] = b'#';
    size + 1
}

// Does the input end here? A read that fails does not tell so.
fn has_ended(input: &mut impl Read) -> bool {
    let mut next = [0u8; 1];
    matches!(input.read(&mut next), Ok(0))
}

// Reads standard input, up to a byte less than there is room for: the last is for the mark. `input` is what follows there.
fn read_text(input: &mut impl Read, text: &mut [u8]) -> usize
    requires { 1 ≤ length text.old }
    ensures { IsPrefixLen result text.new }
{
    let room = text.len() - 1;
    let size = read_full(STDIN, &mut text[..room]);
    close(text, size, has_ended(input))
}

// Writes what is said of a refusal, as mirror says it, and returns its length.
fn write_refused(refusal: Refusal, line: &mut [u8; 12]) -> usize
    ensures prefix_len { IsPrefixLen result line.new }
    ensures line_after { take result line.new ≡ refused_line (number_of refusal) }
{
    let mut said = Writer::new(line);
    said.number_line(b"refused ", usize::from(u8::from(refusal)));
    said.at
}

fn say_refused(refusal: Refusal) {
    let mut line = [0u8; 12];
    let end = write_refused(refusal, &mut line);
    write_all(STDERR, &line[..end]);
}

fn answer(text: &[u8]) {
    let mut sheet = [0u8; 2180];
    match bvh::import(text, &mut sheet) {
        Ok(length) => {
            write_all(STDOUT, &sheet[..length]);
        }
        Err(refusal) => say_refused(refusal),
    }
}

fn main(rt: HostRuntime) {
    let mut text = [0u8; 131073];
    let mut input = rt.stdin();
    let size = read_text(&mut input, &mut text);
    answer(&text[..size]);
}
