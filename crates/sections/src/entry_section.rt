// The entries of the rankings' section.
ghost use Rattle.std.specs.Prelude.{◌≡◌, ◌<◌, length};
ghost use Rattle.std.specs.List.{concat};
ghost use Rattle.refusals.specs.Numbers.{answered};
ghost use Rattle.sections.specs.Entries.{outside, no_band, after, misplaced, entry_fault, entries_fault};

use crate::{ENTRY_WIDTH, Entry};
use refusals::Refusal;

fn is_outside(n: usize, e: Entry) -> bool
    ensures { result ≡ outside n e }
{
    n <= e.joint || n <= e.other || e.joint == e.other
}

fn has_no_band(e: Entry) -> bool
    ensures { result ≡ no_band e }
{
    e.band == 0 || 127 < e.band
}

fn is_after(e: Entry, d: Entry) -> bool
    ensures { result ≡ after e d }
{
    (d.joint, d.other) < (e.joint, e.other)
}

#[tactic(auto, using(crate::proofs::Chunks::entry_in_row, crate::proofs::EntryFaults::misplaced_later))]
fn is_misplaced(entries: &[[u8; ENTRY_WIDTH]], j: usize) -> bool
    requires { j < length entries.now }
    ensures { result ≡ misplaced (concat entries.now) j }
{
    j != 0 && !is_after(Entry::from(entries[j]), Entry::from(entries[j - 1]))
}

fn judge_entry(entries: &[[u8; ENTRY_WIDTH]], n: usize, j: usize) -> Result<(), Refusal>
    requires { j < length entries.now }
    ensures { result ≡ answered (entry_fault n (concat entries.now) j) tt }
{
    let e = Entry::from(entries[j]);
    if is_outside(n, e) {
        return Err(Refusal::NoSuchJoint);
    }
    if has_no_band(e) {
        return Err(Refusal::BadBand);
    }
    if is_misplaced(entries, j) {
        return Err(Refusal::EntryNotAfter);
    }
    Ok(())
}

// Reads the entries of a sheet with n joints.
pub fn read_entries(entries: &[[u8; ENTRY_WIDTH]], n: usize) -> Result<(), Refusal>
    ensures { result ≡ answered (entries_fault (length entries.now) n (concat entries.now)) tt }
{
    for j in 0..entries.len() {
        judge_entry(entries, n, j)?;
    }
    Ok(())
}
