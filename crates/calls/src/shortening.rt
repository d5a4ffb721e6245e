// The call shorten.
ghost use Rattle.std.specs.Prelude.{◌≡◌, ◌≤◌, ◌<◌, length};
ghost use Rattle.roommates.specs.Left.{entry_count};
ghost use Rattle.calls.specs.Calls.{shorten_says, shortened_by, left_by, shorten_answer, shorten_bytes};

use refusals::Refusal;
use results::write_lists;
use roommates::Stage;
use sheet::Rankings;
use stages::{Task, Working};
use steering::steer;

// Shortens rankings of m entries: none, or the lists at phase one's end, in sheet form from the buffer's start on, with their count of entries.
pub fn shorten_lists(
    rankings: &Rankings,
    m: usize,
    choices: &[u8],
    out: &mut [u8],
) -> Result<Option<u32>, Refusal>
    requires { (entry_count rankings.now.joints.count rankings.now.bands ≤ m) × (m < 65536) }
    ensures value { result ≡ shortened_by (shorten_says rankings.now.joints.count m rankings.now.bands choices.now (length out.old)) }
    ensures out_after { out.new ≡ left_by (shorten_says rankings.now.joints.count m rankings.now.bands choices.now (length out.old)) out.old }
{
    if out.len() < 2 + 3 * m {
        return Err(Refusal::OutTooShort);
    }
    let task = Task {
        joints: rankings.joints,
        whole: false,
    };
    let mut working = Working::begin(task, &rankings.bands);
    steer(&mut working, choices)?;
    let Stage::Paired = working.stage else {
        return Ok(None);
    };
    Ok(Some(write_lists(rankings.joints, &working.lists, out) as u32))
}

// Shortens a sheet's lists: none, or the lists at phase one's end, in sheet form from the buffer's start on, with their count of entries.
pub fn shorten(sheet: &[u8], choices: &[u8], out: &mut [u8]) -> Result<Option<u32>, Refusal>
    ensures value { result ≡ shorten_answer sheet.now choices.now out.old }
    ensures out_after { out.new ≡ shorten_bytes sheet.now choices.now out.old }
{
    let read = sheet::read(sheet)?;
    shorten_lists(&read.rankings, read.parts.entries, choices, out)
}
