// Which pairs of up to 8 joints follow the skeleton, and how deep joints lie, straight from document 02: whether joints have parents comes
// before which, pairs come by their lower joint, and the least of their numbers is taken.
ghost use Rattle.std.specs.Prelude.{◌<◌};

use reference::pair_number;
use skeleton::Strays;

// A byte for the parent of each joint, 255 for a root: no Options, since these are the lent bytes as the documents have them.
pub type Parents = [u8; 8];

// How many steps up it is from a joint to its root.
pub fn climbed(parents: &Parents, joint: usize) -> usize
    requires { joint < 8 }
{
    let mut above = parents[joint];
    for steps in 0..8 {
        let Some(parent) = parents.get(usize::from(above)) else {
            return steps;
        };
        above = *parent;
    }
    8
}

// A pairing of joints that have parents.
#[derive(Clone, Copy)]
pub struct Posed<'a> {
    pub parents: &'a Parents,
    pub pairing: &'a [u8],
}

impl Posed<'_> {
    // Both joints are roots; or neither is, and their parents are paired together or are one joint.
    fn follows(&self, a: usize, b: usize) -> bool
        requires { (a < 8) × (b < 8) }
    {
        let p = usize::from(self.parents[a]);
        let q = usize::from(self.parents[b]);
        if p < 8 && q < 8 {
            self.pairing.get(q) == Some(&self.parents[a]) || p == q
        } else {
            8 <= p && 8 <= q
        }
    }

    // The number of a's pair, if a is its lower joint and it does not follow.
    fn stray(&self, a: usize) -> Option<u32> {
        let b = usize::from(*self.pairing.get(a)?);
        if a < b && b < 8 && !self.follows(a, b) {
            Some(pair_number(a, b))
        } else {
            None
        }
    }

    // What is due: None where all pairs follow. By `as`, since a count up to 8 fits; try_from would have an error that cannot be.
    pub fn judged(&self) -> Option<Strays> {
        let lowest = (0..8).filter_map(|a| self.stray(a)).min()?;
        let pairs = (0..8).filter_map(|a| self.stray(a)).count() as u32;
        Some(Strays { pairs, lowest })
    }

    // Have paired joints equal depth?
    pub fn is_level(&self) -> bool {
        self.pairing.iter().enumerate().all(|(a, p)| {
            let p = usize::from(*p);
            8 <= a || 8 <= p || climbed(self.parents, a) == climbed(self.parents, p)
        })
    }
}
