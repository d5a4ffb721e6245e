// Tries quote beside prices worked out in another form: on sheets of 0 to 64 pairs, and on random sheets of up to 8 joints, with choices,
// tariffs, rebates and sheets that are whole or damaged, beside the rules.
#![tactic(auto)]

mod counts;
mod pairs;
mod prices;
mod tariffs;
mod walks;

ghost use Rattle.std.specs.Prelude.{◌<◌};

use arrayvec::ArrayVec;
use calls::{End, Phase};
use counts::Counts;
use pairs::Pairs;
use quote::quote;
use rules::{Call, Work};
use samples::{next, put, varied_sheet};
use std::io;
use tariffs::{Form, Terms, drawn_tariff};
use walks::drawn_walk;

// Quotes of a number of pairs, eight for each; and of random sheets.
const NUMBERS: u32 = 520;

const ROUNDS: u32 = 6144;

// None or a price, or the number of a refusal.
// Refusals are the documents' numbers, and not the library's names, so that a wrong number there is seen.
pub type Answer = Result<End<u64>, u8>;

// What quote answers.
fn quoted(sheet: &[u8], choices: &[u8], terms: &Terms) -> Answer {
    quote(sheet, choices, &terms.tariff, terms.rebate).map_err(u8::from)
}

// The rules' phase as the library's. No From, since both are types of other crates, which stand apart; settle_test needs the other way only.
fn phase_of(phase: rules::Phase) -> Phase {
    match phase {
        rules::Phase::One => Phase::One,
        rules::Phase::Two => Phase::Two,
    }
}

// What is due of an accepted sheet whose working ends so, or has a refused record: 16, 17, then that. None of one that ends in lists, or
// not at all, as settle's never does: no answer agrees with it.
fn due(terms: &Terms, working: Option<Result<rules::End, u8>>) -> Option<Answer> {
    if let Some(number) = terms.refused() {
        return Some(Err(number));
    }
    match working? {
        Ok(rules::End::Paired(pairs)) => {
            let sum = prices::payable(terms, Pairs::new(pairs));
            Some(Ok(End::Paired(sum)))
        }
        Ok(rules::End::None(phase)) => Some(Ok(End::None(phase_of(phase)))),
        Ok(rules::End::Lists(_)) => None,
        Err(number) => Some(Err(number)),
    }
}

// A quote of so many pairs, without choices; of eight, one at the highest price.
fn try_number(counts: &mut Counts, round: u32)
    requires { round < 520 }
{
    let sheet = Pairs::new(round / 8).sheet();
    let x = next(7 * round + 3);
    let form = if round % 8 == 0 {
        Form::Highest
    } else {
        Form::Whole
    };
    let terms = Terms {
        tariff: drawn_tariff(x, form),
        rebate: next(x) % 10001,
    };
    let said = quoted(&sheet, b"", &terms);
    counts.pairs.note(said);
    let expected = due(&terms, Some(Ok(rules::End::Paired(round / 8))));
    counts.comparisons.compare(
        "the quote of a number of pairs",
        round,
        Some(said) == expected,
    );
}

// What is wrong with a sheet: it is a byte short, or two zeros stand behind it, a count of no parents and a byte after them.
#[derive(Clone, Copy)]
enum Damage {
    Short,
    Long,
}

impl Damage {
    // Of sixteen sheets each is wrong with one.
    fn drawn(x: u32) -> Option<Damage> {
        match x % 16 {
            0 => Some(Damage::Short),
            1 => Some(Damage::Long),
            _ => None,
        }
    }

    fn put_in(self, sheet: &mut ArrayVec<u8, 384>) {
        match self {
            Damage::Short => {
                let _ = sheet.pop();
            }
            Damage::Long => put(sheet, &[0, 0]),
        }
    }

    // The refusal that is due before any other.
    fn refused(self) -> u8 {
        match self {
            Damage::Short => 1,
            Damage::Long => 8,
        }
    }
}

// One quote of a random sheet.
fn try_round(counts: &mut Counts, round: u32) {
    let a = next(97 * (round % 65536) + 11);
    let b = next(a);
    let c = next(b);
    let sheet = varied_sheet(round, 181 * (round % 65536) % 65537);
    let walk = drawn_walk(&Work::fresh(Call::Settle, &sheet), b);
    let damage = Damage::drawn(a / 32);
    let mut bytes = ArrayVec::new();
    put(&mut bytes, &sheet.bytes);
    if let Some(damage) = damage {
        damage.put_in(&mut bytes);
    }
    let terms = Terms {
        tariff: drawn_tariff(c, Form::drawn(a)),
        rebate: tariffs::rebate(next(c)),
    };
    let said = quoted(&bytes, &walk.list, &terms);
    counts.sheets.note(said);
    counts.note_kind(said);
    let expected = match damage {
        Some(damage) => Some(Err(damage.refused())),
        None => due(&terms, walk.end),
    };
    counts.comparisons.compare("the quote of a random sheet", round, Some(said) == expected);
}

fn run(rt: &impl Print) -> io::Result<()> {
    let mut counts = Counts::default();
    for round in 0..NUMBERS {
        try_number(&mut counts, round);
    }
    for round in 0..ROUNDS {
        try_round(&mut counts, round);
    }
    println!(rt; "{counts}")
}

// A write that fails ends the print, and is passed over: it says nothing of what was compared.
fn main(rt: HostRuntime) {
    let _ = run(&rt);
}
