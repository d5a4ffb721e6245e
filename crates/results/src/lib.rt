// What a working leaves, written: partners, and the lists that are left. For the crates above, which prove what they require.
#![tactic(auto)]

ghost use Rattle.std.specs.Prelude.{◌≡◌, ◌++◌, ◌+◌, ◌*◌, ◌≤◌, ◌<◌, length, drop};
ghost use Rattle.writing.specs.Written.{HasRoom, Puts};
ghost use Rattle.roommates.specs.Left.{partner_on, pairing_of, entry, row_entries, entries, entry_count, list_bytes};

use lists::rows::list_length;
use sections::{Joints, NO_JOINT};
use writing::Writer;

// The lowest joint on a list, or the byte of none: a pairing's byte. Numbers narrow by `as` here: it is proved that they fit, and `try_from`
// would have an error that cannot be.
fn partner_on(n: Joints, row: &[u8; 128]) -> u8
    ensures { result ≡ partner_on n.count row.now }
{
    (0..n.count)
        .find(|b| 0 < row[*b])
        .map_or(NO_JOINT, |b| b as u8)
}

// The pairing goes to the first n bytes; by index, since of what is written through `iter_mut` only the length is known.
pub fn write_partners(n: Joints, bands: &[[u8; 128]; 128], out: &mut [u8])
    requires { n.count ≤ length out.old }
    ensures { out.new ≡ pairing_of n.count bands.now ++ drop n.count out.old }
{
    for a in 0..n.count {
        out[a] = partner_on(n, &bands[a]);
    }
}

fn count_entries(n: Joints, bands: &[[u8; 128]; 128]) -> usize
    ensures { result ≡ entry_count n.count bands.now }
{
    bands[..n.count].iter().map(|row| list_length(n, row)).sum()
}

// a's entry for b, if there is one
fn write_entry(a: usize, row: &[u8; 128], b: usize, out: &mut Writer<'_>)
    requires { (a < 128) × ((b < 128) × HasRoom out.old (entry a row.now b)) }
    ensures { Puts out.old (entry a row.now b) out.new }
{
    if row[b] == 0 {
        return;
    }
    out.write(&[a as u8, b as u8, row[b]]);
}

fn write_row(n: Joints, a: usize, row: &[u8; 128], out: &mut Writer<'_>)
    requires { (a < 128) × HasRoom out.old (row_entries n.count a row.now) }
    ensures { Puts out.old (row_entries n.count a row.now) out.new }
{
    for b in 0..n.count {
        write_entry(a, row, b, out);
    }
}

fn write_rows(n: Joints, bands: &[[u8; 128]; 128], out: &mut Writer<'_>)
    requires { HasRoom out.old (entries n.count bands.now) }
    ensures { Puts out.old (entries n.count bands.now) out.new }
{
    for a in 0..n.count {
        write_row(n, a, &bands[a], out);
    }
}

// The shortened lists, count first; the count.
pub fn write_lists(n: Joints, bands: &[[u8; 128]; 128], out: &mut [u8]) -> usize
    requires { 2 + 3 * entry_count n.count bands.now ≤ length out.old }
    ensures value { result ≡ entry_count n.count bands.now }
    ensures out_after { out.new ≡ list_bytes n.count bands.now ++ drop (2 + 3 * result) out.old }
{
    let count = count_entries(n, bands);
    let mut lists = Writer::new(out);
    lists.write(&(count as u16).to_le_bytes());
    write_rows(n, bands, &mut lists);
    count
}
