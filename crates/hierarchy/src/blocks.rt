// Blocks and their children. Joints are gathered as they are met. A number narrows by `as`: the joints are 128 at most, and `try_from` would have
// an error that cannot be.
ghost use Rattle.words.specs.Words.{words};
ghost use Rattle.hierarchy.specs.Hierarchy.{block, children};
ghost use Rattle.hierarchy.specs.Gathered.{gathered, Answered};

use headings::{Child, child_of, heading, site};
use names::{NamedJoint, NamedJoints};
use refusals::Refusal;
use words::next_word;

// Reads a block behind its keyword, in the block `above`: its name, its heading, its children. Blocks may nest `deeper` levels in it.
#[cycle(block_children)]
pub fn block<'a>(
    text: &'a [u8],
    above: u8,
    deeper: usize,
    joints: &mut NamedJoints<'a>,
) -> Result<&'a [u8], Refusal>
    ensures { Answered text.now result joints.new.list.items
        (λ f. block (children f deeper) above (words text.now) (gathered joints.old.list.items)) }
{
    let own = joints.len();
    let word = next_word(text).ok_or(Refusal::BadHierarchy)?;
    let joint = NamedJoint {
        name: word.bytes,
        parent: above,
    };
    joints.add(joint)?;
    let inside = heading(word.rest).ok_or(Refusal::BadHierarchy)?;
    children(inside, own as u8, deeper, joints)
}

// Reads the children of block `own` up to its closing brace: JOINT blocks and End Sites. A loop with its end inside: what ends it is a word that is
// read, and what it goes on from is what a child leaves.
#[cycle(block_children)]
fn children<'a>(
    text: &'a [u8],
    own: u8,
    deeper: usize,
    joints: &mut NamedJoints<'a>,
) -> Result<&'a [u8], Refusal>
    ensures { Answered text.now result joints.new.list.items
        (λ f. children f deeper own (words text.now) (gathered joints.old.list.items)) }
{
    let mut rest = text;
    loop {
        let word = next_word(rest).ok_or(Refusal::BadHierarchy)?;
        match child_of(word.bytes).ok_or(Refusal::BadHierarchy)? {
            Child::Close => return Ok(word.rest),
            Child::End => rest = site(word.rest).ok_or(Refusal::BadHierarchy)?,
            Child::Joint => {
                if deeper == 0 {
                    return Err(Refusal::BadHierarchy);
                }
                rest = block(word.rest, own, deeper - 1, joints)?;
            }
        }
    }
}
