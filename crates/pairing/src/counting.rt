// mirror_counts.
ghost use Rattle.std.specs.Prelude.{◌≡◌, ◌<◌};
ghost use Rattle.calls.specs.Calls.{counts_of};
ghost use Rattle.pairing.specs.CCodes.{counts_code};

use crate::{COUNT, number};
use calls::Counts;

// What cuts weigh in a number of 64 bits, above the proposals.
const CUTS: u64 = 4294967296;

fn counts_code(counts: Counts) -> u64
    requires { counts.proposals < 65536 }
    ensures { result ≡ counts_code counts }
{
    let beside = counts.refusal.map_or(0, number);
    u64::from(beside)
        + u64::from(COUNT) * u64::from(counts.proposals)
        + CUTS * u64::from(counts.cuts)
}

// the counts of settle's working if `whole`, else of shorten's
#[unsafe(no_mangle)]
pub extern "C" fn mirror_counts(sheet: &[u8], choices: &[u8], whole: bool) -> u64
    ensures { result ≡ counts_code (counts_of whole sheet.now choices.now) }
{
    counts_code(calls::counting::count_working(sheet, choices, whole))
}
