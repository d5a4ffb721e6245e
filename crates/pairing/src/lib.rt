// The calls as C has them (include/mirror.h), a module for each: a slice is a pointer and a size, an answer one number.
#![tactic(auto)]

pub mod checking;
pub mod counting;
pub mod following;
pub mod importing;
pub mod quoting;
pub mod settling;
pub mod shortening;
pub mod version;

ghost use Rattle.std.specs.Prelude.{◌≡◌, ℕ, ◌<◌, Some, Ok};
ghost use Rattle.refusals.specs.Numbers.{number_of};
ghost use Rattle.pairing.specs.CCodes.{packed, found_code};

use refusals::Refusal;

// What a verdict and what stands above it weigh in an answer, beside the refusal's number.
const VERDICT: u32 = 256;

const COUNT: u32 = 65536;

// The verdict of a pairing, and of lists.
pub(crate) const DONE: u32 = 3;

// A refusal's number, which is an answer's lowest byte.
fn number(refusal: Refusal) -> u32
    ensures { result ≡ number_of refusal }
{
    u32::from(u8::from(refusal))
}

// An answer of 32 bits. That each number fits its place goes as a clause, here and in the modules: the calls' numbers have 32 bits, and it is their
// definitions that bound them.
fn packed(number: u32, verdict: u32, count: u32) -> u32
    requires { (number < 256) × ((verdict < 256) × (count < 65536)) }
    ensures { result ≡ packed number verdict count }
{
    number + VERDICT * verdict + COUNT * count
}

// A number beside its verdict, or verdict 1 where there is none: the answers of check and shorten.
fn found_code(answer: Result<Option<u32>, Refusal>, verdict: u32) -> u32
    requires { (verdict < 256) × ((k : ℕ) → answer ≡ Ok (Some k) → k < 65536) }
    ensures { result ≡ found_code verdict answer }
{
    match answer {
        Err(refusal) => packed(number(refusal), 0, 0),
        Ok(None) => packed(0, 1, 0),
        Ok(Some(count)) => packed(0, verdict, count),
    }
}
