// Phase one, over the square of bands: each function is an equation with a definition of the crate roommates. For the crates
// above, which prove what they require.
#![tactic(auto)]

ghost use Rattle.std.specs.Prelude.{◌≡◌, ◌&&◌, List, ℕ, ◌≤◌, ◌<◌, ◌^◌, ltb, get_or};
ghost use Rattle.roommates.specs.Lists.{row};
ghost use Rattle.roommates.specs.declared.Stage.{Stage};
ghost use Rattle.roommates.specs.PhaseOne.{nobody, work, fresh, list_waits, proposed, propose_all, receive_all, step, phase_one, some_emptied};

use lists::rows::{band_size, best_band, list_length, list_waits};
use lists::strikes::{standing_at, strike};
use ruling::lowest_waiting;
use sections::Joints;

// What phase one keeps beside the lists: for each joint the band that it last proposed to (0 before its first step) and whether
// it ever received a proposal (1 or 0), and how many proposals were made. Two arrays of bytes, since bools, an Option of a band and
// one array of structs would be no plainer: the definitions have two lists of numbers, one for each, with 0 for no band and for no,
// into which every contract would have to turn them. And a step lends the first to be read and the second to be written.
#[derive(Clone, Copy)]
pub struct Progress {
    pub reach: [u8; 128],
    pub received: [u8; 128],
    pub proposals: usize,
}

// as phase one begins
pub fn nothing_made() -> Progress
    ensures { result ≡ record { reach = nobody; received = nobody; proposals = 0 } }
{
    Progress {
        reach: [0; 128],
        received: [0; 128],
        proposals: 0,
    }
}

// p proposes to q
fn propose(n: Joints, reach: &[u8; 128], bands: &mut [[u8; 128]; 128], p: usize, q: usize)
    requires { (p < 128) × (q < 128) }
    ensures { bands.new ≡ proposed n.count reach.now bands.old p q }
{
    let k = bands[q][p];
    strike(n, bands, q, |b| k < b);
    if 2 <= standing_at(n, bands, reach, q) {
        strike(n, bands, q, |b| b == k);
    }
}

// p proposes to every joint in band k of its list as the step began
fn propose_all(
    n: Joints,
    list: &[u8; 128],
    k: u8,
    reach: &[u8; 128],
    bands: &mut [[u8; 128]; 128],
    p: usize,
)
    requires { p < 128 }
    ensures { bands.new ≡ propose_all n.count n.count list.now k reach.now bands.old p }
{
    for i in 0..n.count {
        if list[i] == k {
            propose(n, reach, bands, p, i);
        }
    }
}

// By index, since of what is written through `iter_mut` only the length is known.
fn receive_all(n: Joints, list: &[u8; 128], k: u8, received: &mut [u8; 128])
    ensures { received.new ≡ receive_all n.count list.now k received.old }
{
    for i in 0..n.count {
        if list[i] == k {
            received[i] = 1;
        }
    }
}

// p's step, whatever else the working is. The list is copied, since striking changes it.
pub fn step(n: Joints, bands: &mut [[u8; 128]; 128], made: &mut Progress, p: usize)
    requires { (p < 128) × (made.old.proposals < 2 ^ 63) }
    ensures { (s : Stage) (aside : List ℕ) (c : ℕ) → work s bands.new made.new.reach made.new.received aside made.new.proposals c
        ≡ step n.count (work s bands.old made.old.reach made.old.received aside made.old.proposals c) p }
{
    let list = bands[p];
    let k = best_band(n, &list);
    made.reach[p] = k;
    propose_all(n, &list, k, &made.reach, bands, p);
    receive_all(n, &list, k, &mut made.received);
    made.proposals += band_size(n, k, &list);
}

// is p a joint that waits?
pub fn may_step(n: Joints, bands: &[[u8; 128]; 128], reach: &[u8; 128], p: usize) -> bool
    ensures { result ≡ (ltb p n.count && list_waits n.count (get_or reach.now p 0) (row bands.now p)) }
{
    p < n.count && list_waits(n, reach[p], &bands[p])
}

// Phase one without choices: the lowest joint that waits steps, until nobody does.
pub fn run_on(n: Joints, bands: &mut [[u8; 128]; 128], made: &mut Progress)
    requires { made.old.proposals ≤ 65536 }
    ensures { (s : Stage) (aside : List ℕ) (c : ℕ) → work s bands.new made.new.reach made.new.received aside made.new.proposals c
        ≡ phase_one n.count (work s bands.old made.old.reach made.old.received aside made.old.proposals c) }
{
    // as many turns as the definition has, and more than there are; a `while let` would want a measure, and the count of turns is one
    let turns = n.count * n.count + 1;
    for _turn in 0..turns {
        let Some(p) = lowest_waiting(n, bands, &made.reach) else {
            return;
        };
        step(n, bands, made, p);
    }
}

// The lists that it leaves, from fresh ones.
pub fn run_out(n: Joints, mut lists: [[u8; 128]; 128]) -> [[u8; 128]; 128]
    ensures { result ≡ (phase_one n.count (fresh lists)).lists }
{
    let mut made = nothing_made();
    run_on(n, &mut lists, &mut made);
    lists
}

// none in phase one: some joint received and has an empty list
pub fn some_emptied(n: Joints, bands: &[[u8; 128]; 128], received: &[u8; 128]) -> bool
    ensures { (s : Stage) (reach aside : List ℕ) (m c : ℕ) → result ≡ some_emptied n.count (work s bands.now reach received.now aside m c) }
{
    (0..n.count).any(|a| received[a] == 1 && list_length(n, &bands[a]) == 0)
}
