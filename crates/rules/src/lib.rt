// The two phases for up to 8 joints, sentence by sentence from documents 01 and 02, for the test programs. Refusals are the numbers that
// those documents give, and not the library's names, so that a wrong number there is seen.
#![tactic(auto)]

mod joints;
mod phases;

ghost use Rattle.std.specs.Prelude.{◌<◌, IfSome};

use arrayvec::ArrayVec;
pub use joints::any_of;
use joints::{Set, Table, fullest, has, lowest, rows};
use samples::{Bands, Joints, Sheet, filled, put};

// Which call a working is of.
#[derive(Clone, Copy, PartialEq, Eq)]
pub enum Call {
    Settle,
    Shorten,
}

#[derive(Clone, Copy, PartialEq, Eq)]
pub enum Phase {
    One,
    Two,
}

// The end of a working: none, with its phase; a pairing, with its count of pairs; lists, with their count of entries.
#[derive(Clone, Copy, PartialEq, Eq)]
pub enum End {
    None(Phase),
    Paired(u32),
    Lists(u32),
}

// Where a working stands: in a phase, at its end, or at a refused choice.
#[derive(Clone, Copy, PartialEq, Eq)]
pub enum Stage {
    In(Phase),
    Ended(End),
    Refused(u8),
}

#[derive(Clone, Copy)]
pub struct Work {
    pub call: Call,
    // The sheet's joints and bands.
    pub n: Joints,
    pub bands: Bands,
    // b is on a's list; p's proposal stands at q.
    listed: Table,
    stands: Table,
    // The joints that ever received a proposal, and those set aside.
    received: Set,
    aside: Set,
    pub stage: Stage,
    pub proposals: u32,
    pub cuts: u32,
}

// A working's counts, beside the number of a refused choice.
#[derive(Clone, Copy, PartialEq, Eq)]
pub struct Counts {
    pub refused: Option<u8>,
    pub proposals: u32,
    pub cuts: u32,
}

// What a call answers, an end or the number of a refusal, and nothing for a working that has not ended; the buffer after it; and its working's
// counts.
#[derive(Clone, Copy)]
pub struct Answer {
    pub said: Option<Result<End, u8>>,
    pub out: [u8; 256],
    pub counts: Counts,
}

// The pairs that are listed: both joints have a band for the other. An entry without its return is struck before phase one.
fn listed_of(bands: &Bands) -> Table {
    let mut table = [0; 8];
    for a in 0..8 {
        for b in 0..8 {
            if bands[a][b] != 0 && bands[b][a] != 0 {
                table[a] |= 1 << b;
            }
        }
    }
    table
}

impl Work {
    // A fresh working of a sheet. Either phase may have nothing to do.
    pub fn fresh(call: Call, sheet: &Sheet) -> Work {
        let mut fresh = Work {
            call,
            n: sheet.n,
            bands: sheet.bands,
            listed: listed_of(&sheet.bands),
            stands: [0; 8],
            received: 0,
            aside: 0,
            stage: Stage::In(Phase::One),
            proposals: 0,
            cuts: 0,
        };
        fresh.close();
        fresh.close();
        fresh
    }

    // The joints that the next choice may name: one that waits, or one with a list longer than one.
    pub fn allowed(&self) -> Set {
        match self.stage {
            Stage::In(Phase::One) => self.waiting(),
            Stage::In(Phase::Two) => rows(&self.listed, 2),
            _ => 0,
        }
    }

    // A phase ends when nobody is allowed. A joint that ever received a proposal and has an empty list then gives none in phase one.
    // Joints empty without one are set aside, and with them those that the sheet has not. Shorten ends with phase one.
    fn close(&mut self) {
        if self.allowed() != 0 {
            return;
        }
        match self.stage {
            Stage::In(Phase::One) => {
                self.aside = !rows(&self.listed, 1);
                self.stage = if self.received & self.aside != 0 {
                    Stage::Ended(End::None(Phase::One))
                } else if self.call == Call::Settle {
                    Stage::In(Phase::Two)
                } else {
                    Stage::Ended(End::Lists(self.count()))
                };
            }
            Stage::In(Phase::Two) => self.stage = Stage::Ended(End::Paired(self.count() / 2)),
            _ => {}
        }
    }

    // x, which is allowed, proposes or is cut. Phase two may have nothing to do.
    fn take(&mut self, x: usize)
        requires { x < 8 }
    {
        if self.stage == Stage::In(Phase::One) {
            self.step(x);
            self.close();
        } else {
            self.cut(x);
        }
        self.close();
    }

    // One choice. It is refused if it is not allowed, and not met after a refused one.
    pub fn choose(&mut self, choice: u8) {
        let x = usize::from(choice);
        if x < 8 && has(self.allowed(), x) {
            self.take(x);
            return;
        }
        self.stage = match self.stage {
            Stage::In(Phase::One) => Stage::Refused(11),
            Stage::In(Phase::Two) => Stage::Refused(12),
            Stage::Ended(_) => Stage::Refused(13),
            Stage::Refused(number) => Stage::Refused(number),
        };
    }

    // When choices run out in phase two, the joint with the longest remaining list is cut, and among equals the highest number. In phase
    // one the lowest joint that waits proposes.
    fn ruled(&self) -> Option<usize>
        ensures { IfSome result (λ x. x < 8) }
    {
        if self.stage == Stage::In(Phase::Two) && self.allowed() != 0 {
            return fullest(&self.listed);
        }
        lowest(self.allowed())
    }

    // Where choices have run out, the joint that the rule names is taken every time. There are at most 56 steps and 28 cuts.
    pub fn ended(mut self) -> Work {
        for _ in 0..84 {
            let Some(x) = self.ruled() else {
                break;
            };
            self.take(x);
        }
        self
    }

    pub fn is_refused(&self) -> bool {
        matches!(self.stage, Stage::Refused(_))
    }

    // The partner bytes of 8 joints, 255 for unpaired: no Options, since these are the written bytes as the documents have them.
    // By `as`, since a number below 8 fits; try_from would have an error that cannot be.
    pub fn partners(&self) -> [u8; 8] {
        self.listed
            .map(|list| lowest(list).map_or(255, |b| (b % 8) as u8))
    }

    // Settle writes n bytes: each joint's partner.
    fn settled(&self) -> [u8; 256] {
        filled(&self.partners()[..self.n.count])
    }

    // How many entries remain: the bits of all lists.
    fn count(&self) -> u32 {
        u64::from_le_bytes(self.listed).count_ones()
    }

    // Shorten writes the remaining entries in sheet form, count first, bands as in the sheet.
    fn shortened(&self) -> [u8; 256] {
        let mut out: ArrayVec<u8, 194> = ArrayVec::new();
        put(&mut out, &[(self.count() % 256) as u8, 0]);
        for a in 0..8 {
            for b in 0..8 {
                if has(self.listed[a], b) {
                    put(&mut out, &[a as u8, b as u8, self.bands[a][b]]);
                }
            }
        }
        filled(&out)
    }

    // None and refusals write nothing.
    pub fn answered(&self) -> Answer {
        let said = match self.stage {
            Stage::In(_) => None,
            Stage::Ended(end) => Some(Ok(end)),
            Stage::Refused(number) => Some(Err(number)),
        };
        let out = match said {
            Some(Ok(End::Paired(_))) => self.settled(),
            Some(Ok(End::Lists(_))) => self.shortened(),
            _ => filled(&[]),
        };
        Answer {
            said,
            out,
            counts: Counts {
                refused: said.and_then(Result::err),
                proposals: self.proposals,
                cuts: self.cuts,
            },
        }
    }
}
