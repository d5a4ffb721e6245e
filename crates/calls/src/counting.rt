// The counts of a working.
ghost use Rattle.std.specs.Prelude.{◌≡◌};
ghost use Rattle.records.specs.Records.{worked_by};
ghost use Rattle.calls.specs.Calls.{end_counts, counts_of};

use crate::Counts;
use sheet::Rankings;
use stages::{Task, Working};
use steering::steer;

// `whole` is a flag, as C's call has it. This call, settle and shorten each begin a working and steer it: what did both would hand out a working
// of 17 KB, a copy of it more on the stack of each.
fn count_lists(rankings: &Rankings, choices: &[u8], whole: bool) -> Counts
    ensures { result ≡ end_counts (worked_by whole rankings.now.joints.count rankings.now.bands choices.now) }
{
    let task = Task {
        joints: rankings.joints,
        whole,
    };
    let mut working = Working::begin(task, &rankings.bands);
    let steered = steer(&mut working, choices);
    Counts {
        refusal: steered.err(),
        proposals: working.made.proposals as u32,
        cuts: working.cuts as u32,
    }
}

// The counts of a sheet's working, settle's if `whole`, else shorten's: beside its end, or beside a refused choice.
pub fn count_working(sheet: &[u8], choices: &[u8], whole: bool) -> Counts
    ensures { result ≡ counts_of whole sheet.now choices.now }
{
    match sheet::read(sheet) {
        Ok(read) => count_lists(&read.rankings, choices, whole),
        Err(refusal) => Counts {
            refusal: Some(refusal),
            proposals: 0,
            cuts: 0,
        },
    }
}
