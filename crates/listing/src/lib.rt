// Writes the text that the program `mirror` prints.
#![tactic(auto)]

mod lines;

ghost use Rattle.std.specs.Prelude.{◌≡◌, length};
ghost use Rattle.refusals.specs.Numbers.{number_of};
ghost use Rattle.sections.specs.Labels.{label_at};
ghost use Rattle.calls.specs.Calls.{phase_number};
ghost use Rattle.writing.specs.Written.{HasRoom, Puts, over};
ghost use Rattle.listing.specs.Text.{Labelled, none_text, refused_text};
ghost use Rattle.listing.specs.Sheets.{lists_text, sheet_text};

use calls::settling::settle_lists;
use calls::{End, Phase};
use labels::opened::Opened;
use lines::Listing;
use refusals::Refusal;
use sheet::Rankings;
use writing::Writer;

// No pairing, with the phase. This and `write_refused` are each one call, with a word and a number of its own.
fn write_none(phase: Phase, out: &mut Writer<'_>)
    requires { HasRoom out.old (none_text (phase_number phase)) }
    ensures { Puts out.old (none_text (phase_number phase)) out.new }
{
    out.number_line(b"none phase ", usize::from(u8::from(phase)));
}

// A refusal, with its number.
fn write_refused(refusal: Refusal, out: &mut Writer<'_>)
    requires { HasRoom out.old (refused_text (number_of refusal)) }
    ensures { Puts out.old (refused_text (number_of refusal)) out.new }
{
    out.number_line(b"refused ", usize::from(u8::from(refusal)));
}

// Settles the rankings with no choices: the answer as text, by the labels on the sheet.
fn list_lists(opened: Opened, rankings: &Rankings, out: &mut Writer<'_>)
    requires labelled { Labelled opened.bytes.now opened.labels opened.rankings rankings.now.joints.count }
    requires room { HasRoom out.old (lists_text (label_at opened.bytes.now opened.labels) rankings.now.joints.count rankings.now.bands) }
    ensures { Puts out.old (lists_text (label_at opened.entry.bytes.now opened.entry.labels) rankings.now.joints.count rankings.now.bands) out.new }
{
    let n = rankings.joints.count;
    let mut partners = [0u8; 128];
    match settle_lists(rankings, b"", &mut partners) {
        Ok(End::Paired(_)) => {
            let listing = Listing {
                opened,
                partners: &partners[..n],
            };
            listing.write_pairing(out)
        }
        Ok(End::None(phase)) => write_none(phase, out),
        Err(refused) => write_refused(refused, out),
    }
}

fn write_sheet(sheet: &[u8], out: &mut Writer<'_>)
    requires { HasRoom out.old (sheet_text sheet.now) }
    ensures { Puts out.old (sheet_text sheet.now) out.new }
{
    match sheet::read(sheet) {
        Ok(found) => {
            let opened = Opened::new(sheet, found.parts.labels, found.parts.rankings);
            list_lists(opened, &found.rankings, out)
        }
        Err(refusal) => write_refused(refusal, out),
    }
}

// What mirror prints for a sheet, at the buffer's start. No text is longer than 4,372 bytes.
pub fn list_sheet(sheet: &[u8], out: &mut [u8; 4400]) -> usize
    ensures value { result ≡ length (sheet_text sheet.now) }
    ensures out_after { out.new ≡ over (sheet_text sheet.now) out.old }
{
    let mut text = Writer::new(out);
    write_sheet(sheet, &mut text);
    text.at
}
