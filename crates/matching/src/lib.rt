// Partner bytes over a sheet's joints and square: whether they are a matching, and what they count.
#![tactic(auto)]

ghost use Rattle.std.specs.Prelude.{◌≡◌, ◌<◌, length};
ghost use Rattle.matching.specs.Matchings.{paired_joints, pair_count, is_paired, is_placed, is_matching, pair_number};

use pair_rows::row_start;
use sections::{Joints, NO_JOINT};
// a joint's partner, if it is paired
pub use sections::joint_in as partner;

// Partner bytes that are offered over a sheet's joints and its square of bands. No `Rankings` of crate sheet: a `Rankings` holds its square,
// and check's and follow's is lent, since they should take little stack.
#[derive(Clone, Copy)]
pub struct Offered<'a> {
    pub joints: Joints,
    pub bands: &'a [[u8; 128]; 128],
    pub pairing: &'a [u8],
}

impl Offered<'_> {
    // a has the partner p: a joint that a lists and whose partner is a.
    #[tactic(auto, unfolding(crate::specs::Matchings::is_paired))]
    fn is_paired(&self, a: usize, p: usize) -> bool
        requires { (length self.now.pairing.now ≡ self.now.joints.count) × (a < self.now.joints.count) }
        ensures { result ≡ is_paired self.now.joints.count self.now.bands.now self.now.pairing.now a p }
    {
        p < self.joints.count && partner(self.pairing, p) == Some(a) && 0 < self.bands[a][p]
    }

    #[tactic(auto, unfolding(crate::specs::Matchings::is_placed))]
    fn is_placed(&self, a: usize) -> bool
        requires { (length self.now.pairing.now ≡ self.now.joints.count) × (a < self.now.joints.count) }
        ensures { result ≡ is_placed self.now.joints.count self.now.bands.now self.now.pairing.now a }
    {
        // No `is_none_or`: tried, and no proof closes, since for a closure that has `self` the check knows nothing of what it answers.
        match partner(self.pairing, a) {
            None => true,
            Some(p) => self.is_paired(a, p),
        }
    }

    // As many bytes as joints, each joint unpaired or paired with one that it lists and that has it as its partner.
    pub fn is_matching(&self) -> bool
        ensures { result ≡ is_matching self.now.joints.count self.now.bands.now self.now.pairing.now }
    {
        self.pairing.len() == self.joints.count && (0..self.joints.count).all(|a| self.is_placed(a))
    }
}

// How many joints the bytes pair.
pub fn count_paired(pairing: &[u8]) -> usize
    ensures { result ≡ paired_joints pairing.now }
{
    pairing.iter().filter(|p| **p != NO_JOINT).count()
}

pub fn count_pairs(pairing: &[u8]) -> usize
    ensures { result ≡ pair_count pairing.now }
{
    count_paired(pairing) / 2
}

// The number of the pair of a and b, a below b.
pub fn pair_number(a: usize, b: usize) -> usize
    requires { (a < b) × (b < 128) }
    ensures { result ≡ pair_number a b }
{
    usize::from(row_start(b)) + a
}
