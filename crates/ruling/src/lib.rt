// The joint that the rule names where nobody chooses: in phase one the lowest that waits, in phase two the one with the longest list. For the
// crates above, which prove what they require.
#![tactic(auto)]

ghost use Rattle.std.specs.Prelude.{◌≡◌, get_or};
ghost use Rattle.base.specs.Below.{first_below};
ghost use Rattle.roommates.specs.Lists.{row};
ghost use Rattle.roommates.specs.PhaseOne.{list_waits};
ghost use Rattle.roommates.specs.PhaseTwo.{longest_list};

use lists::rows::{list_length, list_waits};
use sections::Joints;

// the lowest joint that waits
pub fn lowest_waiting(n: Joints, bands: &[[u8; 128]; 128], reach: &[u8; 128]) -> Option<usize>
    ensures { result ≡ first_below n.count (λ p. list_waits n.count (get_or reach.now p 0) (row bands.now p)) }
{
    (0..n.count).find(|p| list_waits(n, reach[*p], &bands[*p]))
}

// The joint with the longest list, and among equals the highest. An Option would be no plainer: without joints this is 0, whose list is
// empty, and phase two ends there as at every list no longer than one.
pub fn longest_list(n: Joints, bands: &[[u8; 128]; 128]) -> usize
    ensures { result ≡ longest_list n.count bands.now }
{
    (0..n.count)
        .max_by_key(|x| list_length(n, &bands[*x]))
        .unwrap_or(0)
}
