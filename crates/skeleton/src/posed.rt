// Partner bytes over joints that have parents.
ghost use Rattle.std.specs.Prelude.{◌≡◌, ◌≢◌, ℕ, ◌≤◌, ◌<◌, length};
ghost use Rattle.base.specs.Below.{first_below};
ghost use Rattle.parents.specs.Parents.{root, parent_of};
ghost use Rattle.skeleton.specs.Following.{follows, is_stray, stray_count};
ghost use Rattle.skeleton.specs.Answers.{followed};

use crate::Strays;
use matching::{pair_number, partner};
use parents::parent;

// A byte of each kind for each joint, in two slices, as they are lent; a parent is lower.
#[derive(Clone, Copy)]
pub(crate) struct Posed<'a> {
    pub parents: &'a [u8],
    pub pairing: &'a [u8],
    ghost lower: { (i : ℕ) → parent_of parents.now i ≢ root → parent_of parents.now i < i },
    ghost one_each: { length pairing.now ≡ length parents.now },
    ghost few: { length pairing.now ≤ 128 },
}

impl Posed<'_> {
    // The two parents are paired together, or are one joint, or both joints are roots.
    #[tactic(auto, unfolding(crate::specs::Following::follows))]
    fn follows(&self, a: usize, b: usize) -> bool
        requires { (a < length self.now.pairing.now) × (b < length self.now.pairing.now) }
        ensures { result ≡ follows self.now.parents.now self.now.pairing.now a b }
    {
        match (parent(self.parents, a), parent(self.parents, b)) {
            (Some(p), Some(q)) => p == q || partner(self.pairing, p) == Some(q),
            (None, None) => true,
            _ => false,
        }
    }

    // b is the higher joint of a pair that does not follow.
    #[tactic(auto, unfolding(crate::specs::Following::is_stray))]
    fn is_stray(&self, b: usize) -> bool
        requires { b < length self.now.pairing.now }
        ensures { result ≡ is_stray self.now.parents.now self.now.pairing.now b }
    {
        // No `is_some_and`: tried, and no proof closes, since for a closure that has `self` the check knows nothing of what it answers.
        match partner(self.pairing, b) {
            Some(a) => a < b && !self.follows(a, b),
            None => false,
        }
    }

    fn count_strays(&self) -> usize
        ensures { result ≡ stray_count self.now.parents.now self.now.pairing.now }
    {
        (0..self.pairing.len())
            .filter(|b| self.is_stray(*b))
            .count()
    }

    // The lowest joint that is the higher one of such a pair.
    fn lowest_stray(&self) -> Option<usize>
        ensures { result ≡ first_below (length self.now.pairing.now) (is_stray self.now.parents.now self.now.pairing.now) }
    {
        (0..self.pairing.len()).find(|b| self.is_stray(*b))
    }

    // The pairs that do not follow, if any does not. Numbers narrow by `as`: it is proved that they fit, and `try_from` would have an error
    // that cannot be.
    pub(crate) fn strays(&self) -> Option<Strays>
        ensures { result ≡ followed self.now.parents.now self.now.pairing.now }
    {
        let b = self.lowest_stray()?;
        let a = partner(self.pairing, b)?;
        Some(Strays {
            pairs: self.count_strays() as u32,
            lowest: pair_number(a, b) as u32,
        })
    }
}
