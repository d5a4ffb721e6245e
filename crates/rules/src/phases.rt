// One step and one cut.
ghost use Rattle.std.specs.Prelude.{◌<◌};

use crate::joints::{Set, Table, count_column, has, lowest, rows, set_of, without};
use crate::{End, Phase, Stage, Work};
use std::cmp::Ordering;

impl Work {
    // The joints on a's list that it ranks so beside this band.
    fn ranked(&self, a: usize, beside: u8, how: Ordering) -> Set
        requires { a < 8 }
    {
        self.listed[a] & set_of(self.bands[a].map(|k| k.cmp(&beside) == how))
    }

    // The joints on a's list beside whom nobody there is ranked so: its best band if nobody is better, its worst if nobody is worse.
    fn outer(&self, a: usize, how: Ordering) -> Set
        requires { a < 8 }
    {
        self.listed[a] & set_of(self.bands[a].map(|k| self.ranked(a, k, how) == 0))
    }

    // a strikes its pairs with the joints of a set. That removes them from both lists and ends proposals between the two.
    fn strike(&mut self, a: usize, set: Set)
        requires { a < 8 }
    {
        self.listed = without(self.listed, a, set);
        self.stands = without(self.stands, a, set);
    }

    // A proposal, received and counted. q strikes all pairs with joints it ranks in a worse band than p. If two or more proposals then
    // stand at q, q strikes every pair in p's band, p's own included.
    fn propose(&mut self, p: usize, q: usize)
        requires { (p < 8) × (q < 8) }
    {
        self.proposals = self.proposals.wrapping_add(1);
        self.received |= 1 << q;
        self.stands[p] |= 1 << q;
        let band = self.bands[q][p];
        self.strike(q, self.ranked(q, band, Ordering::Greater));
        if 2 <= count_column(&self.stands, q) {
            self.strike(q, self.ranked(q, band, Ordering::Equal));
        }
    }

    // p proposes to every joint in the best band of its list as the step begins, lowest number first.
    pub fn step(&mut self, p: usize)
        requires { p < 8 }
    {
        let best = self.outer(p, Ordering::Less);
        for q in 0..8 {
            if has(best, q) {
                self.propose(p, q);
            }
        }
    }

    // A joint waits if its list is not empty and none of its proposals stands.
    pub fn waiting(&self) -> Set {
        rows(&self.listed, 1) & !rows(&self.stands, 1)
    }

    // The lists that a trial leaves: v's pairs with its worst band are struck, then phase one runs afresh with no proposals standing. The
    // lowest waiting joint always proposes, each time to another band, so that 64 steps are enough.
    fn trial(mut self, v: usize) -> Table
        requires { v < 8 }
    {
        self.strike(v, self.outer(v, Ordering::Greater));
        self.stands = [0; 8];
        for _ in 0..64 {
            let Some(p) = lowest(self.waiting()) else {
                break;
            };
            self.step(p);
        }
        self.listed
    }

    // A cut at x, counted. Let z be first on x's list. If the trial at z leaves no list empty (set-aside joints not counted), its lists
    // are kept; else those of the trial at x, from the same lists, by the same test; else none.
    pub fn cut(&mut self, x: usize)
        requires { x < 8 }
    {
        self.cuts = self.cuts.wrapping_add(1);
        let z = lowest(self.outer(x, Ordering::Less)).unwrap_or(x);
        for v in [z, x] {
            let lists = self.trial(v);
            if rows(&lists, 1) | self.aside == 255 {
                self.listed = lists;
                return;
            }
        }
        self.stage = Stage::Ended(End::None(Phase::Two));
    }
}
