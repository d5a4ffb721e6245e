// mirror_import.
ghost use Rattle.std.specs.Prelude.{◌≡◌, ℕ, ◌<◌, Ok, length};
ghost use Rattle.bvh.specs.Answers.{import_of, import_into};
ghost use Rattle.pairing.specs.CCodes.{imported_code};

use crate::{VERDICT, number};
use refusals::Refusal;

// The length stands where a verdict does, and goes on above it. It narrows by `as`: it fits, as the clause says, and `try_from` would have an error
// that cannot be.
fn imported_code(answer: Result<usize, Refusal>) -> u32
    requires { (size : ℕ) → answer ≡ Ok size → size < 65536 }
    ensures { result ≡ imported_code answer }
{
    match answer {
        Ok(size) => VERDICT * size as u32,
        Err(refusal) => number(refusal),
    }
}

// import: a refusal, and the length of the sheet that is written
#[unsafe(no_mangle)]
pub extern "C" fn mirror_import(text: &[u8], out: &mut [u8]) -> u32
    ensures value { result ≡ imported_code (import_of text.now (length out.old)) }
    ensures out_after { out.new ≡ import_into text.now out.old }
{
    imported_code(bvh::import(text, out))
}
