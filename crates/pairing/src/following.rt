// mirror_follow.
ghost use Rattle.std.specs.Prelude.{◌≡◌, ℕ, ◌<◌};
ghost use Rattle.skeleton.specs.Answers.{answer_astray, follow_of};
ghost use Rattle.pairing.specs.CCodes.{followed_code};

use crate::{number, packed};
use refusals::Refusal;
use skeleton::Strays;

fn followed_code(answer: Result<Option<Strays>, Refusal>) -> u32
    requires { (k l : ℕ) → answer ≡ answer_astray k l → (k < 256) × (l < 65536) }
    ensures { result ≡ followed_code answer }
{
    match answer {
        Err(refusal) => packed(number(refusal), 0, 0),
        Ok(None) => packed(0, 0, 0),
        Ok(Some(strays)) => packed(0, strays.pairs, strays.lowest),
    }
}

// follow: a refusal, the number of pairs that do not follow, and the lowest of their numbers
#[unsafe(no_mangle)]
pub extern "C" fn mirror_follow(sheet: &[u8], pairing: &[u8]) -> u32
    ensures { result ≡ followed_code (follow_of sheet.now pairing.now) }
{
    followed_code(skeleton::follow(sheet, pairing))
}
