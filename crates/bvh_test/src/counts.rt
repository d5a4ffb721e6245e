// What the program counts, and prints at its end.
use crate::machine::Parents;
use std::fmt;
use tally::{Comparisons, Refusals, add};

// The three parts of the test: the one text with every change, and with every cut, and random texts.
#[derive(Clone, Copy)]
pub enum Part {
    Changed,
    Cut,
    Random,
}

// Texts of one part; sheets written, their joints, their parents summed; and texts refused.
#[derive(Clone, Copy)]
struct Sums {
    texts: u32,
    sheets: u32,
    joints: u32,
    parents: u32,
    refused: Refusals<4>,
}

impl Default for Sums {
    fn default() -> Sums {
        Sums {
            texts: 0,
            sheets: 0,
            joints: 0,
            parents: 0,
            refused: Refusals::new([2, 9, 19, 20]),
        }
    }
}

impl Sums {
    // What is said of a text whose joints have these parents.
    fn note(&mut self, said: Result<usize, u8>, parents: &Parents) {
        add(&mut self.texts, 1);
        if let Err(number) = said {
            self.refused.note(number);
            return;
        }
        add(&mut self.sheets, 1);
        // By `as`, since a number up to 128 fits; try_from would have an error that cannot be.
        add(&mut self.joints, parents.len() as u32);
        self.parents = parents.iter().fold(self.parents, |sum, parent| {
            sum.wrapping_add(u32::from(*parent))
        });
    }
}

impl fmt::Display for Sums {
    fn fmt<W: fmt::Write>(&self, f: &mut fmt::Formatter<W>) -> fmt::Result {
        write!(
            f,
            "{} {} {} {}{} {}",
            self.texts, self.sheets, self.joints, self.parents, self.refused, self.refused.others
        )
    }
}

#[derive(Default, Drop)]
pub struct Counts {
    pub comparisons: Comparisons,
    changed: Sums,
    cut: Sums,
    random: Sums,
}

impl Counts {
    pub fn note(&mut self, part: Part, said: Result<usize, u8>, parents: &Parents) {
        let sums = match part {
            Part::Changed => &mut self.changed,
            Part::Cut => &mut self.cut,
            Part::Random => &mut self.random,
        };
        sums.note(said, parents);
    }
}

impl fmt::Display for Counts {
    fn fmt<W: fmt::Write>(&self, f: &mut fmt::Formatter<W>) -> fmt::Result {
        writeln!(f, "{}", self.comparisons)?;
        writeln!(
            f,
            "texts, sheets written, their joints, their parents summed, refused 2, 9, 19, 20, by any other number"
        )?;
        writeln!(f, "one text with every change of a word: {}", self.changed)?;
        writeln!(f, "one text cut at every byte: {}", self.cut)?;
        write!(f, "random texts: {}", self.random)
    }
}
