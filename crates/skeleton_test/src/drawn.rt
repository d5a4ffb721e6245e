// Random sheets of up to 8 joints with random parents and matchings, whole or damaged.
ghost use Rattle.std.specs.Prelude.{◌<◌, ◌≤◌};

use crate::counts::{Counts, Part};
use crate::every::nth_parents;
use crate::plain::Parents;
use crate::{Case, Third, try_call};
use reference::{MATCHINGS, Matchings, NONE, Pairing, worth};
use samples::{Bands, Joints, next, varied_sheet};

const ROUNDS: u32 = 6144;

// From one matching to the next that is looked at: it shares no factor with 764, so all of them come.
const STRIDE: usize = 309;

// What is wrong with a third section: it is left out, has another count than n, is a byte short, counts more parents than there are, has a
// byte after it, counts fewer than there are, a joint has itself as its parent, or a higher joint.
#[derive(Clone, Copy)]
enum Damage {
    LeftOut,
    OtherCount,
    Short,
    CountsMore,
    Long,
    CountsFewer,
    OwnParent,
    HigherParent,
}

impl Damage {
    // Of sixteen sections each is wrong with one.
    fn drawn(x: u32) -> Option<Damage> {
        match x % 16 {
            0 => Some(Damage::LeftOut),
            1 => Some(Damage::OtherCount),
            2 => Some(Damage::Short),
            3 => Some(Damage::CountsMore),
            4 => Some(Damage::Long),
            5 => Some(Damage::CountsFewer),
            6 => Some(Damage::OwnParent),
            7 => Some(Damage::HigherParent),
            _ => None,
        }
    }

    // The count of the section.
    fn count(self, n: Joints, x: usize) -> usize
        ensures { result < 256 }
    {
        match self {
            Damage::OtherCount => (n.count + 1 + x % 9) % 10,
            Damage::CountsMore => n.count + 1 + x % 247,
            Damage::CountsFewer => x % (n.count + 1),
            _ => n.count,
        }
    }

    // How many of its bytes are lent.
    fn size(self, n: Joints, count: usize) -> usize {
        match self {
            Damage::LeftOut => 0,
            Damage::OtherCount => count % 10 + 1,
            Damage::Short => n.count,
            Damage::Long | Damage::CountsFewer => n.count + 2,
            _ => n.count + 1,
        }
    }

    // What it is refused with. A section of no joints has no bad parent, and is left out if it is a byte short. Refusals are the documents'
    // numbers, and not the library's names, so that a wrong number there is seen.
    fn refused(self, n: Joints) -> Option<u8> {
        match self {
            Damage::LeftOut | Damage::OtherCount => Some(18),
            Damage::Short if n.count == 0 => Some(18),
            Damage::Short | Damage::CountsMore => Some(1),
            Damage::Long | Damage::CountsFewer => Some(8),
            Damage::OwnParent | Damage::HigherParent if n.count == 0 => None,
            Damage::OwnParent | Damage::HigherParent => Some(18),
        }
    }

    // Its parents. By `as`, since numbers below 256 fit and usize has no From<u32>; try_from would have an error that cannot be.
    fn parents(self, mut parents: Parents, n: Joints, x: usize) -> Parents {
        if n.count == 0 {
            return parents;
        }
        let joint = x % n.count;
        match self {
            Damage::OwnParent => parents[joint] = joint as u8,
            Damage::HigherParent => parents[joint] = (joint + 1 + x / 8 % 247) as u8,
            _ => {}
        }
        parents
    }

    // The section that is so damaged.
    fn third(self, n: Joints, x: u32) -> Third {
        let count = self.count(n, x as usize);
        let parents = self.parents(nth_parents(x, n), n, next(x) as usize);
        Third::new(count as u8, parents, self.size(n, count))
    }
}

fn drawn_third(n: Joints, damage: Option<Damage>, x: u32) -> Third {
    match damage {
        Some(damage) => damage.third(n, x),
        None => Third::whole(n, nth_parents(x, n)),
    }
}

// A matching of the pairs that are listed both ways. The empty one always is.
fn drawn_matching(rows: &Matchings, bands: &Bands, seed: usize) -> Pairing {
    (0..MATCHINGS)
        .filter_map(|k| rows.get((seed % MATCHINGS + STRIDE * k) % MATCHINGS))
        .find(|m| worth(bands, m).is_ok())
        .copied()
        .unwrap_or([NONE; 8])
}

// What is wrong with a pairing: it has a byte more (fewer where there are 8 joints), a byte less (more where there are none), a joint is made
// unpaired, or has any number up to 8 as its partner, or any two joints are paired and no others.
#[derive(Clone, Copy)]
enum Flaw {
    Long,
    Short,
    Unpaired,
    AnyPartner,
    OnePair,
}

impl Flaw {
    // Of sixteen pairings two have one pair alone, and one has each of the others.
    fn drawn(x: u32) -> Option<Flaw> {
        match x % 16 {
            0 => Some(Flaw::Long),
            1 => Some(Flaw::Short),
            2 => Some(Flaw::Unpaired),
            3 => Some(Flaw::AnyPartner),
            4 | 5 => Some(Flaw::OnePair),
            _ => None,
        }
    }

    // How many of its bytes are lent.
    fn size(self, n: Joints) -> usize
        ensures { result ≤ 8 }
    {
        match self {
            Flaw::Long if n.count == 8 => 7,
            Flaw::Short if n.count != 0 => n.count - 1,
            Flaw::Long | Flaw::Short => n.count + 1,
            _ => n.count,
        }
    }

    // Its partners.
    fn partners(self, mut m: Pairing, n: Joints, x: usize) -> Pairing {
        if n.count == 0 {
            return m;
        }
        let a = x % n.count;
        let b = x / 8 % n.count;
        match self {
            Flaw::Unpaired => m[a] = NONE,
            Flaw::AnyPartner => m[a] = (x / 8 % 9) as u8,
            Flaw::OnePair => {
                m = [NONE; 8];
                m[a] = b as u8;
                m[b] = a as u8;
            }
            _ => {}
        }
        m
    }
}

// One call on a random sheet. The section's refusal comes first, then 10 of the pairing.
fn try_sheet(counts: &mut Counts, rows: &Matchings, round: u32)
    requires { round < 6144 }
{
    let sheet = varied_sheet(round, 181 * round % 65537);
    let n = sheet.n;
    let x = next(89 * round + 7);
    let y = next(x);
    let z = next(y) as usize;
    let damage = Damage::drawn(x);
    let third = drawn_third(n, damage, y);
    let matching = drawn_matching(rows, &sheet.bands, z);
    let (m, size) = match Flaw::drawn(y) {
        Some(flaw) => (flaw.partners(matching, n, z), flaw.size(n)),
        None => (matching, n.count),
    };
    let is_bad = size != n.count || worth(&sheet.bands, &m).is_err();
    let refused = damage
        .and_then(|damage| damage.refused(n))
        .or(if is_bad { Some(10) } else { None });
    let case = Case::new(Part::Drawn, round, &sheet, &third);
    try_call(counts, &case, &m[..size], refused);
}

pub fn try_drawn(counts: &mut Counts, rows: &Matchings) {
    for round in 0..ROUNDS {
        try_sheet(counts, rows, round);
    }
}
