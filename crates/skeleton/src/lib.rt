// The call follow: which pairs of an offered pairing follow the skeleton, by the parents of its joints.
#![tactic(auto)]

mod posed;

ghost use Rattle.std.specs.Prelude.{◌≡◌};
ghost use Rattle.parents.specs.Claims.{IsSection};
ghost use Rattle.skeleton.specs.Answers.{follow_lists, follow_of};

use matching::Offered;
use posed::Posed;
use refusals::Refusal;
use sections::Joints;

// The pairs that do not follow: how many they are, and the lowest of their numbers.
#[derive(Clone, Copy, PartialEq, Eq, Debug)]
pub struct Strays {
    pub pairs: u32,
    pub lowest: u32,
}

// Judges an offered pairing over an accepted sheet's joints, square and third section.
fn follow_lists(offered: &Offered, third: &[u8]) -> Result<Option<Strays>, Refusal>
    requires { IsSection offered.now.joints.count third.now }
    ensures { result ≡ follow_lists offered.now.joints.count offered.now.bands.now third.now offered.now.pairing.now }
{
    let Some((_, parents)) = third.split_first() else {
        return Err(Refusal::BadParents);
    };
    if !offered.is_matching() {
        return Err(Refusal::NoPairingOffered);
    }
    let posed = Posed {
        parents,
        pairing: offered.pairing,
    };
    Ok(posed.strays())
}

// Which pairs of an offered pairing do not follow the skeleton: none, or so many. A refusal of the sheet, then 18, then 10.
pub fn follow(sheet: &[u8], pairing: &[u8]) -> Result<Option<Strays>, Refusal>
    ensures { result ≡ follow_of sheet.now pairing.now }
{
    let mut bands = [[0u8; 128]; 128];
    let parts = sheet::lists(sheet, &mut bands)?;
    let joints = Joints {
        count: parts.joints,
    };
    let offered = Offered {
        joints,
        bands: &bands,
        pairing,
    };
    follow_lists(&offered, &sheet[parts.parents..])
}
