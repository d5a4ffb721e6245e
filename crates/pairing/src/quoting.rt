// mirror_quote.
ghost use Rattle.std.specs.Prelude.{◌≡◌, ℕ, ◌*◌, ◌≤◌, Ok};
ghost use Rattle.quote.specs.Quotes.{quote_answer};
ghost use Rattle.pairing.specs.CCodes.{quoted_code};

use crate::{COUNT, DONE, number, packed};
use calls::End;
use refusals::Refusal;
use tariff::Cents;

// Settle's answer is put together apart: it has 32 bits and a sum needs 64, so one function for both would be generic over the number's type, and
// longer than this one.
fn quoted_code(answer: Result<End<Cents>, Refusal>) -> u64
    requires { (k : ℕ) → answer ≡ Ok (End.Paired k) → k ≤ 64 * 4294967295 }
    ensures { result ≡ quoted_code answer }
{
    match answer {
        Err(refusal) => u64::from(packed(number(refusal), 0, 0)),
        Ok(End::None(phase)) => u64::from(packed(0, u32::from(u8::from(phase)), 0)),
        Ok(End::Paired(sum)) => u64::from(packed(0, DONE, 0)) + u64::from(COUNT) * sum,
    }
}

// quote: a refusal, a verdict and the payable sum
#[unsafe(no_mangle)]
pub extern "C" fn mirror_quote(sheet: &[u8], choices: &[u8], tariff: &[u8], rebate: u32) -> u64
    ensures { result ≡ quoted_code (quote_answer sheet.now choices.now tariff.now rebate) }
{
    quoted_code(quote::quote(sheet, choices, tariff, rebate))
}
