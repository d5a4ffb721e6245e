// Tries settle and shorten: rows n and o of document 01, and random sheets of up to 8 joints beside the rules and every matching.
#![tactic(auto)]

mod answers;
mod brute;
mod counts;
mod rows;
mod trying;

use brute::{all_pair, count_stable};
use counts::Counts;
use reference::{Matchings, matchings, paired};
use rows::try_rows;
use rules::{Call, Work};
use samples::{is_one_sided, varied_sheet};
use std::io;
use tally::add;
use trying::Case;

const ROUNDS: u32 = 3072;

// One sheet. All super-stable matchings pair the same joints.
fn try_sheet(counts: &mut Counts, rows: &Matchings, round: u32) {
    let seed = 181 * (round % 65536) % 65537;
    let sheet = varied_sheet(round, seed);
    let settle = Work::fresh(Call::Settle, &sheet);
    let end = settle.ended();
    let stable = count_stable(&sheet.bands, rows);
    let are_alike = all_pair(&sheet.bands, rows, paired(&end.partners()));
    add(&mut counts.one_sided, u32::from(is_one_sided(&sheet.bands)));
    counts.note_end(&end);
    add(&mut counts.stable, stable);
    add(&mut counts.several, u32::from(1 < stable));
    let case = Case {
        round,
        settle,
        shorten: Work::fresh(Call::Shorten, &sheet),
        sheet,
        stable,
    };
    counts
        .comparisons
        .compare("which joints the rules pair", round, are_alike);
    case.try_calls(counts, seed);
}

fn run(rt: &impl Print) -> io::Result<()> {
    let rows = matchings();
    let mut counts = Counts::default();
    try_rows(&mut counts);
    // By `as`, since a number of matchings fits; try_from would have an error that cannot be.
    counts.matchings = rows.len() as u32;
    counts.sheets = ROUNDS;
    for round in 0..ROUNDS {
        try_sheet(&mut counts, &rows, round);
    }
    println!(rt; "{counts}")
}

// A write that fails ends the print, and is passed over: it says nothing of what was compared.
fn main(rt: HostRuntime) {
    let _ = run(&rt);
}
