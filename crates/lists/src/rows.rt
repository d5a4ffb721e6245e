// What one preference list says: a row of bands, 0 for a joint that is not on the list. A row goes with the count of joints, as in the
// definitions, and not as a slice of so many joints, which each caller would have to cut.
ghost use Rattle.std.specs.Prelude.{◌≡◌, ℕ, Bool, get_or};
ghost use Rattle.base.specs.Below.{count_below};
ghost use Rattle.roommates.specs.Lists.{list_length, best_band, worst_band, band_size, first_on};
ghost use Rattle.roommates.specs.PhaseOne.{list_waits};

use sections::Joints;

// How many bands of a list pass a test. A loop that counts in a byte, which the compiler makes steps of sixteen bands; it does not so with
// `filter` and `count`, by which settle took a third longer.
fn count<F: Fn(u8) -> bool>(n: Joints, row: &[u8; 128], test: F) -> usize
    requires { F.IsAlwaysCallable test }
    ensures { (p : ℕ → Bool) → ((b : ℕ) (r : Bool) → F.post test b r → r ≡ p b) → result ≡ count_below n.count (λ b. p (get_or row.now b 0)) }
{
    let mut passed: u8 = 0;
    for b in &row[..n.count] {
        if test(*b) {
            passed += 1;
        }
    }
    usize::from(passed)
}

pub fn list_length(n: Joints, row: &[u8; 128]) -> usize
    ensures { result ≡ list_length n.count row.now }
{
    count(n, row, |b| 0 < b)
}

// The best and the worst band: 0 for an empty list, as the square and the definitions have it. Every caller would turn an Option back into it.
pub fn best_band(n: Joints, row: &[u8; 128]) -> u8
    ensures { result ≡ best_band n.count row.now }
{
    row[..n.count]
        .iter()
        .copied()
        .filter(|b| 0 < *b)
        .min()
        .unwrap_or(0)
}

pub fn worst_band(n: Joints, row: &[u8; 128]) -> u8
    ensures { result ≡ worst_band n.count row.now }
{
    row[..n.count].iter().copied().max().unwrap_or(0)
}

pub fn band_size(n: Joints, k: u8, row: &[u8; 128]) -> usize
    ensures { result ≡ band_size n.count k row.now }
{
    count(n, row, |b| b == k)
}

// The lowest joint of a list's best band. An Option would be no plainer: on an empty list, too, there is one, as every joint has the
// best band there, 0; n where there are no joints at all.
pub fn first_on(n: Joints, row: &[u8; 128]) -> usize
    ensures { result ≡ first_on n.count row.now }
{
    let best = best_band(n, row);
    (0..n.count).find(|b| row[*b] == best).unwrap_or(n.count)
}

// Does a joint with this list, which last proposed to band k, wait? One walk that finds both and has no early end, for speed: by the two
// counts, `list_length` and `band_size`, settle took a fifteenth to a seventh longer. The bound of 128 stands in the code again, since the
// compiler reads no type's invariant: by it the walk is unrolled, and settle takes a quarter less.
pub fn list_waits(n: Joints, k: u8, row: &[u8; 128]) -> bool
    ensures { result ≡ list_waits n.count k row.now }
{
    let (listed, reached) = row[..n.count.min(128)]
        .iter()
        .fold((false, false), |(listed, reached), b| {
            (listed | (0 < *b), reached | (*b == k))
        });
    listed && (k == 0 || !reached)
}
