// The call check: an offered pairing judged against a sheet.
#![tactic(auto)]

ghost use Rattle.std.specs.Prelude.{◌≡◌};
ghost use Rattle.offered.specs.Checks.{check_of};

use blocking::offer;
use matching::Offered;
use refusals::Refusal;
use sections::Joints;

// The square is this call's own, which `Offered` lends; so follow has these lines too, and no function does them for both.
// Checks an offered pairing against a sheet: a refusal of the sheet, then of what is no pairing, then the lowest blocking pair's number, or
// none where the pairing holds.
pub fn check(sheet: &[u8], pairing: &[u8]) -> Result<Option<u32>, Refusal>
    ensures { result ≡ check_of sheet.now pairing.now }
{
    let mut bands = [[0u8; 128]; 128];
    let parts = sheet::lists(sheet, &mut bands)?;
    let joints = Joints {
        count: parts.joints,
    };
    offer(&Offered {
        joints,
        bands: &bands,
        pairing,
    })
}
