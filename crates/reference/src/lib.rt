// What a pairing of up to 8 joints is worth, straight from the definition, and every matching, for the test programs.
#![tactic(auto)]

ghost use Rattle.std.specs.Prelude.{◌<◌, IfSome};

use arrayvec::ArrayVec;
use samples::Bands;

// A byte for the partner of each joint.
pub type Pairing = [u8; 8];

// Of an unpaired joint: no None, since a pairing here is the lent bytes as the documents have them.
pub const NONE: u8 = 255;

// How many matchings 8 joints have: 1, 28, 210, 420 and 105 of 0 to 4 pairs.
pub const MATCHINGS: usize = 764;

pub type Matchings = ArrayVec<Pairing, MATCHINGS>;

// b × (b − 1) ÷ 2 for each b.
const FIRST: [u8; 8] = [0, 0, 1, 3, 6, 10, 15, 21];

// The number of the pair of a and b. A joint is a plain number, since a loop's number is an index as it stands, and a type would have to be
// made of it in each turn. By `as`, since a number below 8 fits; try_from would have an error that cannot be.
pub fn pair_number(a: usize, b: usize) -> u32
    requires { (a < b) × (b < 8) }
{
    u32::from(FIRST[b]) + a as u32
}

// A pairing offered to a sheet.
#[derive(Clone, Copy)]
struct Offered<'a> {
    bands: &'a Bands,
    pairing: &'a Pairing,
}

impl Offered<'_> {
    // Do a and b list each other?
    fn are_listed(&self, a: usize, b: usize) -> bool
        requires { (a < 8) × (b < 8) }
    {
        self.bands[a][b] != 0 && self.bands[b][a] != 0
    }

    // Is a unpaired, or paired with a joint that has it as its partner, where the two list each other?
    fn is_fit(&self, a: usize) -> bool
        requires { a < 8 }
    {
        let p = usize::from(self.pairing[a]);
        if p < 8 {
            usize::from(self.pairing[p]) == a && self.are_listed(a, p)
        } else {
            self.pairing[a] == NONE
        }
    }

    // The band of a's partner, if it has one.
    fn held(&self, a: usize) -> Option<u8>
        requires { a < 8 }
    {
        let p = usize::from(self.pairing[a]);
        self.bands[a].get(p).copied()
    }

    // Is b on a's list, as a on b's, and not its partner, in a band no worse than its partner's if it has one?
    fn wants(&self, a: usize, b: usize) -> bool
        requires { (a < 8) × (b < 8) }
    {
        let band = self.bands[a][b];
        self.are_listed(a, b)
            && usize::from(self.pairing[a]) != b
            && self.held(a).is_none_or(|held| band <= held)
    }

    // The lowest joint below b that blocks with b.
    fn blocker(&self, b: usize) -> Option<usize>
        requires { b < 8 }
        ensures { IfSome result (λ a. a < b) }
    {
        (0..b).find(|a| self.wants(*a, b) && self.wants(b, *a))
    }

    // The number of the lowest pair that blocks and has b as its higher joint.
    fn pair_below(&self, b: usize) -> Option<u32>
        requires { b < 8 }
    {
        let a = self.blocker(b)?;
        Some(pair_number(a, b))
    }
}

// The number of the lowest pair that blocks a matching, None where it is super-stable; refusal 10 for what is no matching. Pairs come by the
// higher joint, then by the lower: so the first that blocks has the lowest number. Refusals are the documents' numbers, and not the library's
// names, so that a wrong number there is seen.
pub fn worth(bands: &Bands, pairing: &Pairing) -> Result<Option<u32>, u8> {
    let offered = Offered { bands, pairing };
    if !(0..8).all(|a| offered.is_fit(a)) {
        return Err(10);
    }
    Ok((0..8).find_map(|b| offered.pair_below(b)))
}

// The matchings so far, and each that leaves a and b unpaired with their pair more.
fn add_pair(rows: &mut Matchings, a: usize, b: usize)
    requires { (a < 8) × (b < 8) }
{
    for r in 0..rows.len() {
        let mut m = rows[r];
        if m[a] == NONE && m[b] == NONE {
            m[a] = b as u8;
            m[b] = a as u8;
            let _ = rows.try_push(m);
        }
    }
}

// Every matching of 8 joints once, the empty one first.
pub fn matchings() -> Matchings {
    let mut rows = ArrayVec::new();
    let _ = rows.try_push([NONE; 8]);
    for a in 0..8 {
        for b in a + 1..8 {
            add_pair(&mut rows, a, b);
        }
    }
    rows
}

// Which joints are paired, a bit for each, joint 0's the highest.
pub fn paired(m: &Pairing) -> u8 {
    m.iter().fold(0, |set, p| (set << 1) | u8::from(*p != NONE))
}
