// The comparisons of a test program, the refusals that it met, and its sums.
#![tactic(auto)]

use arrayvec::ArrayVec;
use std::fmt;

// A comparison that differs: by name, and by the number of its sheet. The name is text, since it is read by nothing but the print.
#[derive(Clone, Copy, Default)]
struct Difference {
    what: &'static str,
    sheet: u32,
}

// How many comparisons agreed, how many did not, and the first of these.
#[derive(Default, Drop)]
pub struct Comparisons {
    agree: u32,
    differ: u32,
    first: ArrayVec<Difference, 64>,
}

impl Comparisons {
    // One comparison: counted, and kept if it differs. What is kept is printed at the end, so that nothing that compares is lent a handle.
    pub fn compare(&mut self, what: &'static str, sheet: u32, agrees: bool) {
        if agrees {
            add(&mut self.agree, 1);
            return;
        }
        add(&mut self.differ, 1);
        let _ = self.first.try_push(Difference { what, sheet });
    }
}

impl fmt::Display for Comparisons {
    fn fmt<W: fmt::Write>(&self, f: &mut fmt::Formatter<W>) -> fmt::Result {
        for difference in &self.first {
            writeln!(
                f,
                "{} differs in sheet {}",
                difference.what, difference.sheet
            )?;
        }
        write!(
            f,
            "comparisons, differences: {} {}",
            self.agree, self.differ
        )
    }
}

// How many calls were refused by each of K numbers, and by any other.
#[derive(Clone, Copy)]
pub struct Refusals<const K: usize> {
    counts: [(u8, u32); K],
    pub others: u32,
}

impl<const K: usize> Refusals<K> {
    pub fn new(numbers: [u8; K]) -> Refusals<K> {
        Refusals {
            counts: numbers.map(|number| (number, 0)),
            others: 0,
        }
    }

    pub fn note(&mut self, number: u8) {
        match self.counts.iter_mut().find(|(k, _)| *k == number) {
            Some((_, count)) => add(count, 1),
            None => add(&mut self.others, 1),
        }
    }
}

// The counts of the numbers, a space before each. The others are left to the program, since not each prints them.
impl<const K: usize> fmt::Display for Refusals<K> {
    fn fmt<W: fmt::Write>(&self, f: &mut fmt::Formatter<W>) -> fmt::Result {
        for (_, count) in &self.counts {
            write!(f, " {count}")?;
        }
        Ok(())
    }
}

// A sum of 32 bits, which wraps.
pub fn add(sum: &mut u32, by: u32) {
    *sum = sum.wrapping_add(by);
}
