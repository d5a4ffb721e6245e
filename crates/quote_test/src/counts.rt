// What the program counts, and prints at its end.
use crate::Answer;
use calls::{End, Phase};
use std::fmt;
use tally::{Comparisons, Refusals, add};

// Quotes of one part, and their answers summed.
#[derive(Clone, Copy, Default)]
pub struct Part {
    quotes: u32,
    sum: u32,
}

impl Part {
    pub fn note(&mut self, said: Answer) {
        add(&mut self.quotes, 1);
        // By `as`, since the low 32 bits fit; try_from would have an error that cannot be.
        add(&mut self.sum, (number_of(said) % 4294967296) as u32);
    }
}

impl fmt::Display for Part {
    fn fmt<W: fmt::Write>(&self, f: &mut fmt::Formatter<W>) -> fmt::Result {
        write!(f, "{} {}", self.quotes, self.sum)
    }
}

#[derive(Drop)]
pub struct Counts {
    pub comparisons: Comparisons,
    pub pairs: Part,
    pub sheets: Part,
    payable: u32,
    none_one: u32,
    none_two: u32,
    refused: Refusals<17>,
}

impl Default for Counts {
    fn default() -> Counts {
        Counts {
            comparisons: Comparisons::default(),
            pairs: Part::default(),
            sheets: Part::default(),
            payable: 0,
            none_one: 0,
            none_two: 0,
            refused: Refusals::new([1, 2, 3, 4, 5, 6, 7, 8, 9, 10, 11, 12, 13, 14, 15, 16, 17]),
        }
    }
}

// An answer as one number: that of a refusal, 101 or 102 for none with its phase, 1000 and the sum. The printed sums are of these numbers.
fn number_of(answer: Answer) -> u64 {
    match answer {
        Err(number) => u64::from(number),
        Ok(End::None(Phase::One)) => 101,
        Ok(End::None(Phase::Two)) => 102,
        Ok(End::Paired(sum)) => sum.wrapping_add(1000),
    }
}

impl Counts {
    // Counts an answer by its kind.
    pub fn note_kind(&mut self, said: Answer) {
        match said {
            Ok(End::Paired(_)) => add(&mut self.payable, 1),
            Ok(End::None(Phase::One)) => add(&mut self.none_one, 1),
            Ok(End::None(Phase::Two)) => add(&mut self.none_two, 1),
            Err(number) => self.refused.note(number),
        }
    }
}

impl fmt::Display for Counts {
    fn fmt<W: fmt::Write>(&self, f: &mut fmt::Formatter<W>) -> fmt::Result {
        writeln!(f, "{}", self.comparisons)?;
        writeln!(
            f,
            "quotes of 0 to 64 pairs, their answers summed to 32 bits: {}",
            self.pairs
        )?;
        writeln!(f, "quotes of random sheets, likewise: {}", self.sheets)?;
        writeln!(
            f,
            "a sum, none phase 1, none phase 2: {} {} {}",
            self.payable, self.none_one, self.none_two
        )?;
        write!(f, "refused 1 to 17:{}", self.refused)
    }
}
