// Joints as a hierarchy names them.
ghost use Rattle.std.specs.Prelude.{◌≡◌, ◌≤◌, [], ◌∷◌, ◌++◌, length, MatchResult, OnOk, OnErr};
ghost use Rattle.refusals.specs.Numbers.{number_of};
ghost use Rattle.names.specs.Names.{name_fault, names_fault};
ghost use Rattle.names.specs.Kept.{kept_names};

use crate::{is_known, is_name};
use arrayvec::ArrayVec;
use refusals::Refusal;

// A joint: its name, and the number of the block that encloses its own, 255 for none: the byte that a sheet has for it.
#[derive(Clone, Copy, Default)]
pub struct NamedJoint<'a> {
    pub name: &'a [u8],
    // No Option: it is only ever written, as this byte, and the definitions of a hierarchy have bytes; an Option would be turned back at once.
    pub parent: u8,
}

// In order of appearance, as many as a sheet can have; no name among theirs has a fault.
#[derive(Drop)]
pub struct NamedJoints<'a> {
    pub list: ArrayVec<NamedJoint<'a>, 128>,
    pub ghost good: { names_fault (kept_names list.items) ≡ 0 },
}

impl<'a> NamedJoints<'a> {
    pub fn new() -> NamedJoints<'a>
        ensures { result.list.items ≡ [] }
    {
        NamedJoints {
            list: ArrayVec::new(),
        }
    }

    pub fn len(&self) -> usize
        ensures value { result ≡ length self.now.list.items }
        ensures fits { result ≤ 128 }
    {
        self.list.len()
    }

    pub fn as_slice(&self) -> &[NamedJoint<'a>]
        ensures { result.now ≡ self.now.list.items }
    {
        self.list.as_slice()
    }

    // Adds a joint, unless its name is refused: it is one too many, it cannot be a label, or it is one of those before.
    pub fn add(&mut self, joint: NamedJoint<'a>) -> Result<(), Refusal>
        ensures answer { MatchResult result (λ _. name_fault (kept_names self.old.list.items) joint.entry.name.now ≡ 0)
            (λ refusal. name_fault (kept_names self.old.list.items) joint.entry.name.now ≡ number_of refusal) }
        ensures ok { OnOk result (self.new.list.items ≡ self.old.list.items ++ (joint.entry ∷ [])) }
        ensures err { OnErr result (self.new.list.items ≡ self.old.list.items) }
    {
        if self.list.is_full() {
            return Err(Refusal::TooManyJoints);
        }
        if !is_name(joint.name) || is_known(self.as_slice(), joint.name) {
            return Err(Refusal::BadName);
        }
        self.list.push(joint);
        Ok(())
    }
}
