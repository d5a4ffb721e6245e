// Marks in code: a working saved in a mark, and restored from it. For the crates above, which prove what they require.
#![tactic(auto)]

ghost use Rattle.marks.specs.Saved.{Saves, Restores};

use refusals::Refusal;
use stages::Working;

// The working goes into mark m, in place of what was there.
pub fn save(m: usize, working: &Working, marks: &mut [Option<Working>; 8]) -> Result<(), Refusal>
    ensures { Saves m working.now marks.old marks.new result }
{
    // No `get_mut`: tried, and no proof closes, since of a slice written through it only the length is known, and no element.
    if marks.len() <= m {
        return Err(Refusal::NoSuchMark);
    }
    marks[m] = Some(*working);
    Ok(())
}

// The working is again as it was when mark m was last set.
pub fn restore(m: usize, working: &mut Working, marks: &[Option<Working>; 8]) -> Result<(), Refusal>
    ensures { Restores m working.old marks.now working.new result }
{
    let Some(Some(saved)) = marks.get(m) else {
        return Err(Refusal::NoSuchMark);
    };
    *working = *saved;
    Ok(())
}
