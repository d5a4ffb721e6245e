// What joints do to the square of bands: proposals that stand, and strikes.
ghost use Rattle.std.specs.Prelude.{◌≡◌, ℕ, Bool, ◌<◌};
ghost use Rattle.roommates.specs.Lists.{struck, strike_if};
ghost use Rattle.roommates.specs.PhaseOne.{stands, standing_at};

use sections::Joints;

// does a proposal of a joint that last proposed to band k stand where it has band b?
fn stands_in(k: u8, b: u8) -> bool
    ensures { result ≡ stands k b }
{
    1 <= k && b == k
}

// A loop that counts in a byte: with `filter` and `count` over the column settle took a fifth to a third longer.
pub fn standing_at(n: Joints, bands: &[[u8; 128]; 128], reach: &[u8; 128], q: usize) -> usize
    requires { q < 128 }
    ensures { result ≡ standing_at n.count bands.now reach.now q }
{
    let mut count: u8 = 0;
    for p in 0..n.count {
        if stands_in(reach[p], bands[p][q]) {
            count += 1;
        }
    }
    usize::from(count)
}

fn strike_pair(bands: &mut [[u8; 128]; 128], q: usize, i: usize)
    requires { (q < 128) × (i < 128) }
    ensures { bands.new ≡ struck bands.old q i }
{
    bands[q][i] = 0;
    bands[i][q] = 0;
}

// q strikes every pair whose band on its list is hit.
pub fn strike<F: Fn(u8) -> bool>(n: Joints, bands: &mut [[u8; 128]; 128], q: usize, hit: F)
    requires callable { F.IsAlwaysCallable hit }
    requires in_bounds { q < 128 }
    ensures { (test : ℕ → Bool) → ((b : ℕ) (r : Bool) → F.post hit b r → r ≡ test b) → bands.new ≡ strike_if test n.count bands.old q }
{
    for i in 0..n.count {
        if hit(bands[q][i]) {
            strike_pair(bands, q, i);
        }
    }
}
