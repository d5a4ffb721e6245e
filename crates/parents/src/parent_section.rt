// The parents' section: nothing, or a count and the parents of as many joints.
ghost use Rattle.std.specs.Prelude.{◌≡◌, ◌<◌, length};
ghost use Rattle.base.specs.Below.{any_below};
ghost use Rattle.refusals.specs.Numbers.{answered};
ghost use Rattle.parents.specs.Parents.{bad_parent, extent_fault, counted_fault, parents_fault};

use crate::parent;
use refusals::Refusal;

// Does the section, which may be left out, go as far as the sheet? Else it is cut short, or bytes follow it.
pub fn parents_extent(third: &[u8]) -> Result<(), Refusal>
    ensures { result ≡ answered (extent_fault third.now) tt }
{
    let Some((count, part)) = third.split_first() else {
        return Ok(());
    };
    let count = usize::from(*count);
    if part.len() < count {
        return Err(Refusal::SheetCutShort);
    }
    if count < part.len() {
        return Err(Refusal::BytesAfterSheet);
    }
    Ok(())
}

// Is a parent neither 255 nor lower?
fn is_bad(part: &[u8], joint: usize) -> bool
    requires { joint < length part.now }
    ensures { result ≡ bad_parent part.now joint }
{
    parent(part, joint).is_some_and(|above| joint <= above)
}

fn some_bad(part: &[u8]) -> bool
    ensures { result ≡ any_below (length part.now) (bad_parent part.now) }
{
    (0..part.len()).any(|joint| is_bad(part, joint))
}

// Reads a parent for each of n joints.
fn read_parents(part: &[u8], n: usize) -> Result<(), Refusal>
    ensures { result ≡ answered (counted_fault n (length part.now) part.now) tt }
{
    if part.len() != n || some_bad(part) {
        return Err(Refusal::BadParents);
    }
    Ok(())
}

// Reads the section, if it is there: its parents are the part after its count, as many as it counts.
pub fn read_third(third: &[u8], n: usize) -> Result<(), Refusal>
    requires { extent_fault third.now ≡ 0 }
    ensures { result ≡ answered (parents_fault n third.now) tt }
{
    let Some((_, part)) = third.split_first() else {
        return Ok(());
    };
    read_parents(part, n)
}
