// mirror_check.
ghost use Rattle.std.specs.Prelude.{◌≡◌};
ghost use Rattle.offered.specs.Checks.{check_of};
ghost use Rattle.pairing.specs.CCodes.{checked_code};

use crate::found_code;

// check: a refusal, 1 if the pairing holds, and the blocking pair's number
#[unsafe(no_mangle)]
pub extern "C" fn mirror_check(sheet: &[u8], pairing: &[u8]) -> u32
    ensures { result ≡ checked_code (check_of sheet.now pairing.now) }
{
    found_code(offered::check(sheet, pairing), 0)
}
