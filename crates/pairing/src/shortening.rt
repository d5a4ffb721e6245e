// mirror_shorten.
ghost use Rattle.std.specs.Prelude.{◌≡◌};
ghost use Rattle.calls.specs.Calls.{shorten_answer, shorten_bytes};
ghost use Rattle.pairing.specs.CCodes.{shortened_code};

use crate::{DONE, found_code};

// shorten: a refusal, a verdict and the count of entries
#[unsafe(no_mangle)]
pub extern "C" fn mirror_shorten(sheet: &[u8], choices: &[u8], out: &mut [u8]) -> u32
    ensures value { result ≡ shortened_code (shorten_answer sheet.now choices.now out.old) }
    ensures out_after { out.new ≡ shorten_bytes sheet.now choices.now out.old }
{
    found_code(calls::shortening::shorten(sheet, choices, out), DONE)
}
