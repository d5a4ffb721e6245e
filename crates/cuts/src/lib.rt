// Phase two, over the square of bands: each function is an equation with a definition of the crate roommates. For the crates
// above, which prove what they require.
#![tactic(auto)]

ghost use Rattle.std.specs.Prelude.{◌≡◌, ◌&&◌, ◌<◌, cond, ltb};
ghost use Rattle.roommates.specs.PhaseTwo.{trial, aside_of, none_emptied, cut_at, longer};
ghost use Rattle.cuts.specs.Kept.{is_kept, lists_after};

use lists::rows::{first_on, list_length, worst_band};
use lists::strikes::strike;
use proposals::run_out;
use sections::Joints;

// The lists after a trial at v: its worst band is struck, then phase one runs afresh.
fn trial(n: Joints, mut lists: [[u8; 128]; 128], v: usize) -> [[u8; 128]; 128]
    requires { v < 128 }
    ensures { result ≡ trial n.count lists v }
{
    let k = worst_band(n, &lists[v]);
    strike(n, &mut lists, v, |b| b == k);
    run_out(n, lists)
}

// The joints set aside, those with an empty list: bytes, 1 or 0, as `Progress` of proposals has them. By index, since of what is written through
// `iter_mut` only the length is known.
pub fn set_aside(n: Joints, bands: &[[u8; 128]; 128]) -> [u8; 128]
    ensures { result ≡ aside_of n.count bands.now }
{
    let mut aside = [0u8; 128];
    for i in 0..n.count {
        if list_length(n, &bands[i]) == 0 {
            aside[i] = 1;
        }
    }
    aside
}

// no list is empty but those of joints set aside
fn none_emptied(n: Joints, aside: &[u8; 128], bands: &[[u8; 128]; 128]) -> bool
    ensures { result ≡ none_emptied n.count aside.now bands.now }
{
    (0..n.count).all(|a| aside[a] == 1 || 1 <= list_length(n, &bands[a]))
}

// A trial at v: whether it is kept, as one is that empties no list. Its lists are then left, else they stay. In place and no `Option`
// of lists, which would lay 16 KB more on the stack. Who is set aside goes beside the lists, since the one is read and the others written.
fn try_at(n: Joints, aside: &[u8; 128], lists: &mut [[u8; 128]; 128], v: usize) -> bool
    requires { v < 128 }
    ensures value { result ≡ none_emptied n.count aside.now (trial n.count lists.old v) }
    ensures lists_after { lists.new ≡ cond (none_emptied n.count aside.now (trial n.count lists.old v)) (trial n.count lists.old v) lists.old }
{
    let after = trial(n, *lists, v);
    let kept = none_emptied(n, aside, &after);
    if kept {
        *lists = after;
    }
    kept
}

// A cut at x: whether a trial is kept, one at the first on x's list or else one at x. Its lists are then left; where neither is, the
// lists stay.
#[tactic(auto, unfolding(roommates::specs::PhaseTwo::cut_at), using(lists::proofs::LawsFirst::first_inside))]
pub fn cut(n: Joints, aside: &[u8; 128], lists: &mut [[u8; 128]; 128], x: usize) -> bool
    requires { x < n.count }
    ensures value { result ≡ is_kept (cut_at n.count aside.now lists.old x) }
    ensures lists_after { lists.new ≡ lists_after lists.old (cut_at n.count aside.now lists.old x) }
{
    let first = first_on(n, &lists[x]);
    try_at(n, aside, lists, first) || try_at(n, aside, lists, x)
}

// is x a joint with a list longer than one?
pub fn may_cut(n: Joints, bands: &[[u8; 128]; 128], x: usize) -> bool
    ensures { result ≡ (ltb x n.count && longer n.count bands.now x) }
{
    x < n.count && 2 <= list_length(n, &bands[x])
}
