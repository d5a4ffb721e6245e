// Tries import beside a machine of its own: one text with every change of a word and every cut, and random texts, whole, changed or cut; with four
// kinds of buffers in turn.
#![tactic(auto)]

mod counts;
mod drawn;
mod machine;
mod spelling;

ghost use Rattle.std.specs.Prelude.{◌≤◌};

use arrayvec::ArrayVec;
use bvh::import;
use counts::{Counts, Part};
use drawn::{Change, Mode, Recipe, put_text};
use machine::Machine;
use samples::{FILL, filled, next};
use spelling::{Text, word_of};
use std::io;

// The seed of the one text, which has 79 words and 545 bytes: two ROOT blocks that nest, End Sites, and MOTION with words. Some of its words are
// keywords in other places.
const SEED: u32 = 13432;

// How many changes it has, 81 at each word, and the number of the first random text, behind its cuts.
const CHANGES: u32 = 6399;

const RANDOMS: u32 = 6945;

const TEXTS: u32 = 12545;

// The bytes of the buffer for a text, by its number: the longest sheet's, as many as its sheet has, one less, none.
fn room_of(number: u32, length: usize) -> usize
    ensures { result ≤ 2180 }
{
    let room = match number / 12 % 4 {
        0 => 2180,
        1 => length,
        2 => length.saturating_sub(1),
        _ => 0,
    };
    room.min(2180)
}

// What import answers: the sheet's length, or the number of a refusal.
// Refusals are the documents' numbers, and not the library's names, so that a wrong number there is seen.
fn imported(text: &[u8], out: &mut [u8]) -> Result<usize, u8> {
    import(text, out).map_err(u8::from)
}

// One text: the answer, and each byte of the buffer.
fn try_text(counts: &mut Counts, part: Part, number: u32, text: &[u8]) {
    let machine = Machine::behind(text);
    let mut sheet: ArrayVec<u8, 2180> = ArrayVec::new();
    machine.put_sheet(&mut sheet);
    let length = sheet.len();
    let room = room_of(number, length);
    let due = match machine.refused() {
        Some(number) => Err(number),
        None if room < length => Err(9),
        None => Ok(length),
    };
    let mut out = [FILL; 2180];
    let said = imported(text, &mut out[..room]);
    let left: [u8; 2180] = if due.is_ok() {
        filled(&sheet)
    } else {
        filled(&[])
    };
    counts.note(part, said, &machine.parents);
    counts.comparisons.compare(
        "the answer or the buffer",
        number,
        said == due && out == left,
    );
}

// The change k of the one text: at each word each of 40 words in its place, each before it, and the word left out.
fn change_of(k: u32) -> Change {
    // By `as`, since usize has no From<u32>; try_from would have an error that cannot be.
    let place = (k / 81) as usize;
    let word = word_of(k % 81);
    match k % 81 / 40 {
        0 => Change::Replace(place, word),
        1 => Change::Insert(place, word),
        _ => Change::LeaveOut(place),
    }
}

// A random recipe. Of eight texts two are whole, two have a word left out, two another one, one a word more, and one is cut.
fn drawn_recipe(round: u32) -> Recipe {
    let x = next(28657 * (round % 65536) % 65537);
    let y = next(x);
    let seed = next(y);
    let mode = Mode::of(round);
    let goal = mode.goal(seed);
    let place = y as usize % (12 * goal + 1);
    let word = word_of(x / 8);
    let change = match x % 8 % 5 {
        0 => None,
        1 => Some(Change::LeaveOut(place)),
        2 => Some(Change::Replace(place, word)),
        3 => Some(Change::Insert(place, word)),
        _ => Some(Change::Cut(y as usize % (64 * goal + 1))),
    };
    Recipe { seed, mode, change }
}

// The changes and the cuts of the one text, and then the random texts.
fn recipe_of(k: u32) -> (Part, Recipe) {
    if RANDOMS <= k {
        return (Part::Random, drawn_recipe(k));
    }
    let (part, change) = if k < CHANGES {
        (Part::Changed, change_of(k))
    } else {
        (Part::Cut, Change::Cut((k - CHANGES) as usize))
    };
    let recipe = Recipe {
        seed: SEED,
        mode: Mode::Small,
        change: Some(change),
    };
    (part, recipe)
}

fn try_number(counts: &mut Counts, k: u32) {
    let (part, recipe) = recipe_of(k);
    let mut text = Text::new();
    put_text(&mut text, recipe);
    let end = match recipe.change {
        Some(Change::Cut(place)) => place.min(text.len()),
        _ => text.len(),
    };
    try_text(counts, part, k, &text[..end]);
}

fn run(rt: &impl Print) -> io::Result<()> {
    let mut counts = Counts::default();
    for k in 0..TEXTS {
        try_number(&mut counts, k);
    }
    println!(rt; "{counts}")
}

// A write that fails ends the print, and is passed over: it says nothing of what was compared.
fn main(rt: HostRuntime) {
    let _ = run(&rt);
}
