// mirror_settle.
ghost use Rattle.std.specs.Prelude.{◌≡◌, ℕ, ◌<◌, Ok};
ghost use Rattle.calls.specs.Calls.{settle_answer, settle_bytes};
ghost use Rattle.pairing.specs.CCodes.{settled_code};

use crate::{DONE, number, packed};
use calls::End;
use refusals::Refusal;

fn settled_code(answer: Result<End<u32>, Refusal>) -> u32
    requires { (k : ℕ) → answer ≡ Ok (End.Paired k) → k < 65536 }
    ensures { result ≡ settled_code answer }
{
    match answer {
        Err(refusal) => packed(number(refusal), 0, 0),
        Ok(End::None(phase)) => packed(0, u32::from(u8::from(phase)), 0),
        Ok(End::Paired(count)) => packed(0, DONE, count),
    }
}

// settle: a refusal, a verdict and the count of pairs
#[unsafe(no_mangle)]
pub extern "C" fn mirror_settle(sheet: &[u8], choices: &[u8], out: &mut [u8]) -> u32
    ensures value { result ≡ settled_code (settle_answer sheet.now choices.now out.old) }
    ensures out_after { out.new ≡ settle_bytes sheet.now choices.now out.old }
{
    settled_code(calls::settling::settle(sheet, choices, out))
}
