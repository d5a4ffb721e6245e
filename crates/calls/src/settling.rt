// The call settle.
ghost use Rattle.std.specs.Prelude.{◌≡◌, ◌≤◌, length};
ghost use Rattle.writing.specs.Written.{over};
ghost use Rattle.matching.specs.Matchings.{pair_count};
ghost use Rattle.roommates.specs.Left.{pairing_of};
ghost use Rattle.calls.specs.Calls.{settle_says, settled_by, left_by, settle_answer, settle_bytes};

use crate::{End, Phase};
use matching::count_pairs;
use refusals::Refusal;
use results::write_partners;
use roommates::Stage;
use sections::Joints;
use sheet::Rankings;
use stages::{Task, Working};
use steering::steer;

// The pairing where a working ended goes to the first n bytes; its count of pairs.
fn write_pairing(n: Joints, lists: &[[u8; 128]; 128], out: &mut [u8]) -> u32
    requires { n.count ≤ length out.old }
    ensures value { result ≡ pair_count (pairing_of n.count lists.now) }
    ensures out_after { out.new ≡ over (pairing_of n.count lists.now) out.old }
{
    write_partners(n, lists, out);
    count_pairs(&out[..n.count]) as u32
}

// Settles rankings: none with its phase, or a pairing, whose partner bytes begin the buffer. A working that was not refused has ended; of one
// that goes on the definitions say none in phase two, and so does this. Laid into its callers for speed: the compiler then copies the square
// less often, which a small sheet's call is mostly made of.
#[inline(always)]
pub fn settle_lists(
    rankings: &Rankings,
    choices: &[u8],
    out: &mut [u8],
) -> Result<End<u32>, Refusal>
    ensures value { result ≡ settled_by (settle_says rankings.now.joints.count rankings.now.bands choices.now (length out.old)) }
    ensures out_after { out.new ≡ left_by (settle_says rankings.now.joints.count rankings.now.bands choices.now (length out.old)) out.old }
{
    let n = rankings.joints;
    if out.len() < n.count {
        return Err(Refusal::OutTooShort);
    }
    let task = Task {
        joints: n,
        whole: true,
    };
    let mut working = Working::begin(task, &rankings.bands);
    steer(&mut working, choices)?;
    let end = match working.stage {
        Stage::Paired => End::Paired(write_pairing(n, &working.lists, out)),
        Stage::NoneOne => End::None(Phase::One),
        Stage::NoneTwo | Stage::Proposing | Stage::Cutting => End::None(Phase::Two),
    };
    Ok(end)
}

// Settles a sheet: none with its phase, or a pairing, whose partner bytes begin the buffer.
pub fn settle(sheet: &[u8], choices: &[u8], out: &mut [u8]) -> Result<End<u32>, Refusal>
    ensures value { result ≡ settle_answer sheet.now choices.now out.old }
    ensures out_after { out.new ≡ settle_bytes sheet.now choices.now out.old }
{
    let read = sheet::read(sheet)?;
    settle_lists(&read.rankings, choices, out)
}
