// The call import, by which the hierarchy of a BVH text becomes a sheet.
#![tactic(auto)]

mod sheets;

ghost use Rattle.std.specs.Prelude.{◌≡◌, length};
ghost use Rattle.bvh.specs.Answers.{import_of, import_into};

use names::NamedJoints;
use refusals::Refusal;
use writing::Writer;

// Reads the hierarchy that the text begins with, and writes its sheet at the buffer's beginning: labels, no rankings, parents. Answers the sheet's
// length in bytes. The text is read before a byte is written, so a refusal changes none.
pub fn import(text: &[u8], out: &mut [u8]) -> Result<usize, Refusal>
    ensures value { result ≡ import_of text.now (length out.old) }
    ensures out_after { out.new ≡ import_into text.now out.old }
{
    let mut joints = NamedJoints::new();
    hierarchy::read(text, &mut joints)?;
    let size = sheets::size_of(&joints);
    if out.len() < size {
        return Err(Refusal::OutTooShort);
    }
    let mut sheet = Writer::new(out);
    sheets::write_sheet(&joints, &mut sheet);
    Ok(size)
}
