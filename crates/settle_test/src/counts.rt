// What the program counts, and prints at its end.
use replay::Record;
use rules::{Call, End, Phase, Stage, Work};
use std::fmt;
use tally::{Comparisons, Refusals, add};

// What a call answers: within the rules, or refused.
#[derive(Clone, Copy)]
struct Answers {
    within: u32,
    refused: Refusals<6>,
}

impl Default for Answers {
    fn default() -> Answers {
        Answers {
            within: 0,
            refused: Refusals::new([9, 11, 12, 13, 14, 15]),
        }
    }
}

impl Answers {
    fn note(&mut self, said: Option<Result<End, u8>>) {
        match said {
            Some(Ok(_)) => add(&mut self.within, 1),
            Some(Err(number)) => self.refused.note(number),
            None => {}
        }
    }
}

impl fmt::Display for Answers {
    fn fmt<W: fmt::Write>(&self, f: &mut fmt::Formatter<W>) -> fmt::Result {
        write!(f, "{}{}", self.within, self.refused)
    }
}

#[derive(Default, Drop)]
pub struct Counts {
    pub comparisons: Comparisons,
    pub matchings: u32,
    pub sheets: u32,
    // Sheets with an entry that is not returned.
    pub one_sided: u32,
    // With no choices.
    paired: u32,
    none_one: u32,
    none_two: u32,
    pub stable: u32,
    // Sheets with more than one super-stable matching.
    pub several: u32,
    proposals: u32,
    cuts: u32,
    // Records of the lists that grow.
    steps: u32,
    marks: u32,
    returns: u32,
    returns_from_end: u32,
    settle: Answers,
    shorten: Answers,
}

impl Counts {
    // What is counted of settle's working with no choices.
    pub fn note_end(&mut self, end: &Work) {
        match end.stage {
            Stage::Ended(End::Paired(_)) => add(&mut self.paired, 1),
            Stage::Ended(End::None(Phase::One)) => add(&mut self.none_one, 1),
            _ => add(&mut self.none_two, 1),
        }
        add(&mut self.proposals, end.proposals);
        add(&mut self.cuts, end.cuts);
    }

    // What is counted of a record that is met where settle's working stands so.
    pub fn note_record(&mut self, record: Record, stage: Stage) {
        match record {
            Record::Step(_) => add(&mut self.steps, 1),
            Record::Mark(_) => add(&mut self.marks, 1),
            Record::Return(_) => {
                add(&mut self.returns, 1);
                add(
                    &mut self.returns_from_end,
                    u32::from(matches!(stage, Stage::Ended(_))),
                );
            }
        }
    }

    pub fn note_answer(&mut self, call: Call, said: Option<Result<End, u8>>) {
        match call {
            Call::Settle => self.settle.note(said),
            Call::Shorten => self.shorten.note(said),
        }
    }
}

impl fmt::Display for Counts {
    fn fmt<W: fmt::Write>(&self, f: &mut fmt::Formatter<W>) -> fmt::Result {
        writeln!(f, "{}", self.comparisons)?;
        writeln!(f, "matchings of 8 joints: {}", self.matchings)?;
        writeln!(
            f,
            "sheets, with an entry that is not returned: {} {}",
            self.sheets, self.one_sided
        )?;
        writeln!(
            f,
            "pairing, none phase 1, none phase 2: {} {} {}",
            self.paired, self.none_one, self.none_two
        )?;
        writeln!(
            f,
            "super-stable matchings, sheets with more than one: {} {}",
            self.stable, self.several
        )?;
        writeln!(f, "proposals, cuts: {} {}", self.proposals, self.cuts)?;
        writeln!(
            f,
            "steps, marks, returns, returns from an end: {} {} {} {}",
            self.steps, self.marks, self.returns, self.returns_from_end
        )?;
        writeln!(
            f,
            "settle within the rules, refused 9, 11 to 15: {}",
            self.settle
        )?;
        write!(
            f,
            "shorten within the rules, refused 9, 11 to 15: {}",
            self.shorten
        )
    }
}
