// The names of a hierarchy, as the words of a text that they are. For the crates above, which prove what they require.
#![tactic(auto)]

mod joints;

ghost use Rattle.std.specs.Prelude.{◌≡◌};
ghost use Rattle.names.specs.Names.{is_name, is_known};
ghost use Rattle.names.specs.Kept.{kept_names};

pub use joints::{NamedJoint, NamedJoints};
use sections::{LABEL_WIDTH, visible_run};

// Can a word be a label?
fn is_name(word: &[u8]) -> bool
    ensures { result ≡ is_name word.now }
{
    word.len() <= LABEL_WIDTH && visible_run(word) == word.len()
}

// Is a word one of the names?
fn is_known(joints: &[NamedJoint<'_>], word: &[u8]) -> bool
    ensures { result ≡ is_known (kept_names joints.now) word.now }
{
    joints.iter().any(|joint| joint.name == word)
}
