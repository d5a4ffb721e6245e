// The calls settle, shorten and counts over a sheet's bytes. Numbers narrow by `as`: they fit, as the clauses show, and `try_from` would have an
// error that cannot be.
#![tactic(auto)]

pub mod counting;
pub mod settling;
pub mod shortening;

ghost use Rattle.std.specs.Prelude.{◌≡◌};
ghost use Rattle.calls.specs.Calls.{phase_number};

use refusals::Refusal;

// The phase of a working that ended in none, with the number by which documents, C and printed texts know it.
#[derive(Clone, Copy, Debug, PartialEq, Eq)]
pub enum Phase {
    One = 1,
    Two = 2,
}

// Beside `From<Refusal>`, of the same form: each enum has its own numbers and definition.
impl From<Phase> for u8 {
    ghost from_gives = { λ phase number. number ≡ phase_number phase };

    fn from(phase: Phase) -> u8 {
        phase as u8
    }
}

// The end of a working: none, with its phase, or a pairing with what is said of it: its count of pairs, or their price. None is no error, so
// this is no Result.
#[derive(Clone, Copy, Debug, PartialEq, Eq)]
pub enum End<P> {
    None(Phase),
    Paired(P),
}

// The counts of a working, beside the refusal of a choice or of the sheet if there is one.
#[derive(Clone, Copy, Debug, PartialEq, Eq)]
pub struct Counts {
    pub refusal: Option<Refusal>,
    pub proposals: u32,
    pub cuts: u32,
}
