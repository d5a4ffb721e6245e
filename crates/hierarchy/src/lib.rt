// Reads the hierarchy that a text begins with. For the crates above, which prove what they require. Each function takes a text and answers what
// is left of it, by which they are chained with `?`, as those for words and headings; a struct of the text and the joints would need a field set
// where an answer is handed on now.
#![tactic(auto)]

mod blocks;

ghost use Rattle.std.specs.Prelude.{◌≡◌, []};
ghost use Rattle.words.specs.Words.{words};
ghost use Rattle.hierarchy.specs.Hierarchy.{ends, root_block, roots, hierarchy};
ghost use Rattle.hierarchy.specs.Gathered.{gathered, Answers, Answered, Shorter};

use blocks::block;
use names::NamedJoints;
use refusals::Refusal;
use sections::NO_JOINT;
use words::{keyword, next_word};

// How many levels may nest inside a root's block: JOINT nests to depth 32, and a root has depth 1.
const DEEPER: usize = 31;

// Does the hierarchy end here? There MOTION stands, or the text ends.
fn ends(text: &[u8]) -> bool
    ensures { result ≡ ends (words text.now) }
{
    next_word(text).is_none_or(|word| word.bytes == b"MOTION".as_slice())
}

// Reads a ROOT block.
fn root<'a>(text: &'a [u8], joints: &mut NamedJoints<'a>) -> Result<&'a [u8], Refusal>
    ensures answered { Answered text.now result joints.new.list.items
        (λ f. root_block f (words text.now) (gathered joints.old.list.items)) }
    ensures shorter { Shorter text.now result }
{
    let name = keyword(text, b"ROOT").ok_or(Refusal::BadHierarchy)?;
    block(name, NO_JOINT, DEEPER, joints)
}

// Reads ROOT blocks, one or more, up to MOTION or the end, which stands behind a block: so the loop has its end inside.
fn roots<'a>(text: &'a [u8], joints: &mut NamedJoints<'a>) -> Result<&'a [u8], Refusal>
    ensures { Answered text.now result joints.new.list.items
        (λ f. roots f (words text.now) (gathered joints.old.list.items)) }
{
    let mut rest = text;
    loop {
        rest = root(rest, joints)?;
        if ends(rest) {
            return Ok(rest);
        }
    }
}

// Reads the hierarchy, and gathers its joints in what is lent, which has none yet. Lent, as for the functions that it calls, and not answered: so
// nobody hands 128 joints over by value. Answers the text that follows.
pub fn read<'a>(text: &'a [u8], joints: &mut NamedJoints<'a>) -> Result<&'a [u8], Refusal>
    ensures { joints.old.list.items ≡ [] → Answers text.now result joints.new.list.items (hierarchy text.now) }
{
    let first = keyword(text, b"HIERARCHY").ok_or(Refusal::BadHierarchy)?;
    roots(first, joints)
}
