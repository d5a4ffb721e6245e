// How many joints there are, and bytes that name them.
ghost use Rattle.std.specs.Prelude.{◌≡◌, ◌≤◌, ◌<◌, length, MatchResult};
ghost use Rattle.sections.specs.Joints.{joint_in};
ghost use Rattle.refusals.specs.declared.Refusal.TheVariants.{TooManyJoints};

use refusals::Refusal;

// At most 128: what tables and squares have room for.
#[derive(Clone, Copy)]
pub struct Joints {
    pub count: usize,
    ghost few: { count ≤ 128 },
}

impl TryFrom<u8> for Joints {
    type Error = Refusal;

    // as many as the byte says, or an error where that is more than 128
    ghost try_from_gives = { λ byte found. MatchResult found (λ n. n.count ≡ byte) (λ e. (e ≡ TooManyJoints) × (128 < byte)) };

    fn try_from(byte: u8) -> Result<Joints, Refusal> {
        if byte <= 128 {
            Ok(Joints {
                count: usize::from(byte),
            })
        } else {
            Err(Refusal::TooManyJoints)
        }
    }
}

// The byte of no joint: of an unpaired joint's partner, and of a root's parent.
pub const NO_JOINT: u8 = 255;

// The joint that byte i names: an unpaired joint has no partner, and a root no parent.
pub fn joint_in(bytes: &[u8], i: usize) -> Option<usize>
    requires { i < length bytes.now }
    ensures { result ≡ joint_in bytes.now i }
{
    let joint = bytes[i];
    if joint == NO_JOINT {
        None
    } else {
        Some(usize::from(joint))
    }
}
