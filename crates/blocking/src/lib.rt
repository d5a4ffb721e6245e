// Which pair blocks a matching, and what offered partner bytes are worth. A joint is a plain number with its bound in clauses, as in lists: a loop's
// number is an index at once.
#![tactic(auto)]

ghost use Rattle.std.specs.Prelude.{true, ◌≡◌, ◌<◌};
ghost use Rattle.matching.specs.Matchings.{is_matching};
ghost use Rattle.blocking.specs.Blocking.{welcomes, is_apart, blocks, first_blocker, pair_below, blocking_pair};
ghost use Rattle.blocking.specs.Answers.{offer_of};

use matching::{Offered, pair_number, partner};
use refusals::Refusal;

// Partner bytes that are a matching.
#[derive(Clone, Copy)]
struct Matched<'a> {
    offered: Offered<'a>,
    ghost matching: { is_matching offered.joints.count offered.bands.now offered.pairing.now ≡ true },
}

impl Matched<'_> {
    // a is unpaired, or has b in a band no worse than its partner's.
    #[tactic(auto, unfolding(crate::specs::Blocking::welcomes))]
    fn welcomes(&self, a: usize, b: usize) -> bool
        requires { (a < self.now.offered.joints.count) × (b < self.now.offered.joints.count) }
        ensures { result ≡ welcomes self.now.offered.bands.now self.now.offered.pairing.now a b }
    {
        let Offered { bands, pairing, .. } = self.offered;
        // No `is_none_or`: tried, and no proof closes, since the closure would have to be shown that a partner is an index in range.
        match partner(pairing, a) {
            None => true,
            Some(p) => bands[a][b] <= bands[a][p],
        }
    }

    // a and b list each other and are not paired together.
    #[tactic(auto, unfolding(crate::specs::Blocking::is_apart))]
    fn is_apart(&self, a: usize, b: usize) -> bool
        requires { (a < self.now.offered.joints.count) × (b < self.now.offered.joints.count) }
        ensures { result ≡ is_apart self.now.offered.bands.now self.now.offered.pairing.now a b }
    {
        let Offered { bands, pairing, .. } = self.offered;
        0 < bands[a][b] && 0 < bands[b][a] && partner(pairing, a) != Some(b)
    }

    #[tactic(auto, unfolding(crate::specs::Blocking::blocks))]
    fn blocks(&self, a: usize, b: usize) -> bool
        requires { (a < self.now.offered.joints.count) × (b < self.now.offered.joints.count) }
        ensures { result ≡ blocks self.now.offered.bands.now self.now.offered.pairing.now a b }
    {
        self.is_apart(a, b) && self.welcomes(a, b) && self.welcomes(b, a)
    }

    // The lowest joint below b that blocks with b.
    fn blocker(&self, b: usize) -> Option<usize>
        requires { b < self.now.offered.joints.count }
        ensures { result ≡ first_blocker self.now.offered.bands.now self.now.offered.pairing.now b }
    {
        (0..b).find(|a| self.blocks(*a, b))
    }

    // The number of the lowest pair that blocks and has b as its higher joint.
    fn pair_below(&self, b: usize) -> Option<u32>
        requires { b < self.now.offered.joints.count }
        ensures { result ≡ pair_below self.now.offered.bands.now self.now.offered.pairing.now b }
    {
        let a = self.blocker(b)?;
        // by `as`, since the clause shows that it fits, and `try_from` would have an error that cannot be
        Some(pair_number(a, b) as u32)
    }

    // The number of the lowest pair that blocks.
    fn blocking_pair(&self) -> Option<u32>
        ensures { result ≡ blocking_pair self.now.offered.joints.count self.now.offered.bands.now self.now.offered.pairing.now }
    {
        (0..self.offered.joints.count).find_map(|b| self.pair_below(b))
    }
}

// The answer to an offered pairing: that it holds, or the number of the lowest pair that blocks it.
#[tactic(auto, unfolding(crate::specs::Answers::offer_of))]
pub fn offer(offered: &Offered) -> Result<Option<u32>, Refusal>
    ensures { result ≡ offer_of offered.now.joints.count offered.now.bands.now offered.now.pairing.now }
{
    if !offered.is_matching() {
        return Err(Refusal::NoPairingOffered);
    }
    let matched = Matched { offered: *offered };
    Ok(matched.blocking_pair())
}
