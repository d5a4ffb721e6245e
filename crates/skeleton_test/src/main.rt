// Tries follow beside a reference of its own: every skeleton of up to 6 joints with every matching, and random sheets of up to 8 joints whose
// third section and pairing are whole or damaged.
#![tactic(auto)]

mod counts;
mod drawn;
mod every;
mod plain;

use arrayvec::ArrayVec;
use counts::{Counts, Part};
use drawn::try_drawn;
use every::try_every;
use plain::{Parents, Posed};
use reference::matchings;
use samples::{Joints, Sheet, put};
use skeleton::{Strays, follow};
use std::io;

// What follow answers: all pairs follow, or those that do not; or the number of a refusal.
// Refusals are the documents' numbers, and not the library's names, so that a wrong number there is seen.
pub type Answer = Result<Option<Strays>, u8>;

// A third section as it is lent, and the parents that it was made of.
#[derive(Drop)]
pub struct Third {
    parents: Parents,
    bytes: ArrayVec<u8, 10>,
}

impl Third {
    // So many bytes are lent: of the count, then the parents, then a byte more.
    pub fn new(count: u8, parents: Parents, size: usize) -> Third {
        let mut bytes = ArrayVec::new();
        put(&mut bytes, &[count]);
        put(&mut bytes, &parents);
        put(&mut bytes, &[0]);
        bytes.truncate(size);
        Third { parents, bytes }
    }

    // The section of n joints with nothing wrong. By `as`, since a count up to 8 fits; try_from would have an error that cannot be.
    pub fn whole(n: Joints, parents: Parents) -> Third {
        Third::new(n.count as u8, parents, n.count + 1)
    }
}

// A sheet with its third section, the parents in it, where its calls are counted, and its number there.
#[derive(Drop)]
pub struct Case {
    part: Part,
    number: u32,
    parents: Parents,
    bytes: ArrayVec<u8, 384>,
}

impl Case {
    pub fn new(part: Part, number: u32, sheet: &Sheet, third: &Third) -> Case {
        let mut bytes = ArrayVec::new();
        put(&mut bytes, &sheet.bytes);
        put(&mut bytes, &third.bytes);
        Case {
            part,
            number,
            parents: third.parents,
            bytes,
        }
    }
}

// One call with a pairing, which may be refused. Where all pairs follow, paired joints have equal depth.
pub fn try_call(counts: &mut Counts, case: &Case, pairing: &[u8], refused: Option<u8>) {
    let said = follow(&case.bytes, pairing).map_err(u8::from);
    let posed = Posed {
        parents: &case.parents,
        pairing,
    };
    let due = match refused {
        Some(number) => Err(number),
        None => Ok(posed.judged()),
    };
    counts.note(case.part, said);
    counts
        .comparisons
        .compare("the answer", case.number, said == due);
    if said == Ok(None) {
        counts
            .comparisons
            .compare("the depth of a pair", case.number, posed.is_level());
    }
}

// The counts and the matchings go apart through both parts, since a loop over the matchings reads the one and changes the other.
fn run(rt: &impl Print) -> io::Result<()> {
    let rows = matchings();
    let mut counts = Counts::default();
    try_every(&mut counts, &rows);
    try_drawn(&mut counts, &rows);
    println!(rt; "{counts}")
}

// A write that fails ends the print, and is passed over: it says nothing of what was compared.
fn main(rt: HostRuntime) {
    let _ = run(&rt);
}
