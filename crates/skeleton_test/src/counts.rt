// What the program counts, and prints at its end.
use crate::Answer;
use std::fmt;
use tally::{Comparisons, Refusals, add};

// The two parts of the test.
#[derive(Clone, Copy)]
pub enum Part {
    Every,
    Drawn,
}

// Calls of one part, how many say that all pairs follow and that some do not, how many pairs do not, and the sum of their lowest numbers.
#[derive(Clone, Copy, Default)]
struct Sums {
    calls: u32,
    all: u32,
    astray: u32,
    pairs: u32,
    lowest: u32,
}

impl fmt::Display for Sums {
    fn fmt<W: fmt::Write>(&self, f: &mut fmt::Formatter<W>) -> fmt::Result {
        writeln!(
            f,
            "all pairs follow, some do not: {} {} {}",
            self.calls, self.all, self.astray
        )?;
        write!(
            f,
            "pairs that do not follow, their lowest numbers summed: {} {}",
            self.pairs, self.lowest
        )
    }
}

#[derive(Drop)]
pub struct Counts {
    pub comparisons: Comparisons,
    every: Sums,
    drawn: Sums,
    pub depths: u32,
    refused: Refusals<4>,
}

impl Default for Counts {
    fn default() -> Counts {
        Counts {
            comparisons: Comparisons::default(),
            every: Sums::default(),
            drawn: Sums::default(),
            depths: 0,
            refused: Refusals::new([1, 8, 10, 18]),
        }
    }
}

impl Counts {
    pub fn note(&mut self, part: Part, said: Answer) {
        let sums = match part {
            Part::Every => &mut self.every,
            Part::Drawn => &mut self.drawn,
        };
        add(&mut sums.calls, 1);
        match said {
            Ok(None) => add(&mut sums.all, 1),
            Ok(Some(strays)) => {
                add(&mut sums.astray, 1);
                add(&mut sums.pairs, strays.pairs);
                add(&mut sums.lowest, strays.lowest);
            }
            Err(number) => self.refused.note(number),
        }
    }
}

impl fmt::Display for Counts {
    fn fmt<W: fmt::Write>(&self, f: &mut fmt::Formatter<W>) -> fmt::Result {
        writeln!(f, "{}", self.comparisons)?;
        writeln!(
            f,
            "every skeleton of up to 6 joints with every matching, {}",
            self.every
        )?;
        writeln!(
            f,
            "depths of the joints of every skeleton, summed: {}",
            self.depths
        )?;
        writeln!(f, "random sheets, {}", self.drawn)?;
        write!(
            f,
            "refused 1, 8, 10, 18, by any other number:{} {}",
            self.refused, self.refused.others
        )
    }
}
