// Every skeleton of up to 6 joints that all list each other, with every matching.
ghost use Rattle.std.specs.Prelude.{◌<◌};
ghost use Rattle.parents.specs.Claims.{Lower};

use crate::counts::{Counts, Part};
use crate::plain::{Parents, climbed};
use crate::{Case, Third, try_call};
use reference::{Matchings, NONE};
use samples::{Joints, Sheet, Style, drawn_sheet};
use tally::add;

// How many skeletons of n joints there are: n!. By `as`, since a count below 7 fits; try_from would have an error that cannot be.
fn skeletons(n: Joints) -> u16
    requires { n.count < 7 }
{
    (1..=n.count as u16).product()
}

// Joint i has one of the i lower joints as its parent, or none: the digit of v to the base i + 1 says which. In check_test all digits have one
// base, so the loops stay apart.
pub fn nth_parents(v: u32, n: Joints) -> Parents
    ensures { Lower result }
{
    let mut parents = [NONE; 8];
    let mut rest = v as usize;
    for i in 0..n.count {
        let digit = rest % (i + 1);
        rest /= i + 1;
        if digit < i {
            parents[i] = digit as u8;
        }
    }
    parents
}

// Each matching that pairs none but the first n joints.
fn try_matchings(counts: &mut Counts, rows: &Matchings, case: &Case, n: Joints) {
    for m in rows {
        let (first, others) = m.split_at(n.count);
        if others.iter().all(|p| *p == NONE) {
            try_call(counts, case, first, None);
        }
    }
}

// The depth of each joint.
fn try_depths(counts: &mut Counts, number: u32, parents: &Parents, n: Joints)
    requires { Lower parents.now }
{
    for joint in 0..n.count {
        let depth = parents::depth(parents, joint);
        add(&mut counts.depths, depth as u32);
        let agrees = depth == climbed(parents, joint);
        counts
            .comparisons
            .compare("the depth of a joint", number, agrees);
    }
}

// A sheet of n joints that all list each other.
fn full_sheet(n: Joints) -> Sheet {
    let style = Style {
        skip: 0,
        lone: 0,
        width: 0,
        turn: 0,
    };
    drawn_sheet(n, 0, style)
}

// Skeleton v of n joints.
fn try_skeleton(counts: &mut Counts, rows: &Matchings, n: Joints, v: u16) {
    let parents = nth_parents(u32::from(v), n);
    let number = 1000 * n.count as u32 + u32::from(v);
    let third = Third::whole(n, parents);
    let case = Case::new(Part::Every, number, &full_sheet(n), &third);
    try_depths(counts, number, &parents, n);
    try_matchings(counts, rows, &case, n);
}

pub fn try_every(counts: &mut Counts, rows: &Matchings) {
    for count in 0..7 {
        let n = Joints { count };
        for v in 0..skeletons(n) {
            try_skeleton(counts, rows, n, v);
        }
    }
}
