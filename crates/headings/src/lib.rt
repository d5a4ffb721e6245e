// What stands between a block's name and its children, and behind the word End. For the crates above, which prove what they require.
#![tactic(auto)]

ghost use Rattle.std.specs.Prelude.{◌≡◌};
ghost use Rattle.words.specs.Words.{words};
ghost use Rattle.words.specs.Met.{Reaches};
ghost use Rattle.headings.specs.Headings.{opening, heading, site, child_of};

use words::{any_words, counted_words, keyword};

// What a word may begin in a block: the block's end, an End Site, a JOINT.
#[derive(Clone, Copy)]
pub enum Child {
    Close,
    End,
    Joint,
}

// Meets an opening brace, OFFSET and three words.
fn opening(text: &[u8]) -> Option<&[u8]>
    ensures { Reaches text.now result (opening (words text.now)) }
{
    let offset = keyword(text, b"{")?;
    let numbers = keyword(offset, b"OFFSET")?;
    any_words(numbers, 3)
}

// Meets what opens a block behind its name: a brace, the offset, the channels.
pub fn heading(text: &[u8]) -> Option<&[u8]>
    ensures { Reaches text.now result (heading (words text.now)) }
{
    let channels = opening(text)?;
    let count = keyword(channels, b"CHANNELS")?;
    counted_words(count)
}

// Meets an End Site behind the word End.
pub fn site(text: &[u8]) -> Option<&[u8]>
    ensures { Reaches text.now result (site (words text.now)) }
{
    let brace = keyword(text, b"Site")?;
    let close = opening(brace)?;
    keyword(close, b"}")
}

// What a word begins in a block, if it may stand there.
#[tactic(auto, using(crate::proofs::HeadingLaws::children))]
pub fn child_of(word: &[u8]) -> Option<Child>
    ensures { result ≡ child_of word.now }
{
    match word {
        b"}" => Some(Child::Close),
        b"End" => Some(Child::End),
        b"JOINT" => Some(Child::Joint),
        _ => None,
    }
}
