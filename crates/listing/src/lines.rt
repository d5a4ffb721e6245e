// The lines of a pairing: the two counts, and joint by joint a pair's at its lower joint, an unpaired joint's.
ghost use Rattle.std.specs.Prelude.{◌<◌, length};
ghost use Rattle.base.specs.Below.{joined};
ghost use Rattle.sections.specs.Labels.{label_at};
ghost use Rattle.writing.specs.Written.{HasRoom, Puts};
ghost use Rattle.listing.specs.Text.{pair_part, alone_part, pairing_text, Listable};

use labels::lines::{write_label_line, write_pair_line};
use labels::opened::Opened;
use matching::{count_paired, partner};
use writing::Writer;

// A pairing of the joints whose labels lie on the sheet.
#[derive(Clone, Copy)]
pub(crate) struct Listing<'a> {
    pub opened: Opened<'a>,
    pub partners: &'a [u8],
    ghost listable: { Listable opened.bytes.now opened.labels opened.rankings partners.now },
}

impl Listing<'_> {
    // The line of i's pair, if i is the lower joint of one.
    fn write_pair(&self, i: usize, out: &mut Writer<'_>)
        requires i_in_bounds { i < length self.now.partners.now }
        requires room { HasRoom out.old (pair_part (label_at self.now.opened.bytes.now self.now.opened.labels) self.now.partners.now i) }
        ensures { Puts out.old (pair_part (label_at self.now.opened.bytes.now self.now.opened.labels) self.now.partners.now i) out.new }
    {
        match partner(self.partners, i) {
            Some(p) if i < p => write_pair_line(self.opened.label(i), self.opened.label(p), out),
            _ => {}
        }
    }

    // i's line, if i is unpaired.
    fn write_lone(&self, i: usize, out: &mut Writer<'_>)
        requires i_in_bounds { i < length self.now.partners.now }
        requires room { HasRoom out.old (alone_part (label_at self.now.opened.bytes.now self.now.opened.labels) self.now.partners.now i) }
        ensures { Puts out.old (alone_part (label_at self.now.opened.bytes.now self.now.opened.labels) self.now.partners.now i) out.new }
    {
        match partner(self.partners, i) {
            Some(_) => {}
            None => write_label_line(self.opened.label(i), out),
        }
    }

    // The pairs by lower joint. The loop of `write_alone` is the same, but one function for both would take a closure, and its contract would be
    // longer than both loops.
    fn write_pairs(&self, out: &mut Writer<'_>)
        requires { HasRoom out.old (joined (length self.now.partners.now) (pair_part (label_at self.now.opened.bytes.now self.now.opened.labels) self.now.partners.now)) }
        ensures { Puts out.old (joined (length self.now.partners.now) (pair_part (label_at self.now.opened.bytes.now self.now.opened.labels) self.now.partners.now)) out.new }
    {
        for i in 0..self.partners.len() {
            self.write_pair(i, out);
        }
    }

    // The unpaired joints, a line each.
    fn write_alone(&self, out: &mut Writer<'_>)
        requires { HasRoom out.old (joined (length self.now.partners.now) (alone_part (label_at self.now.opened.bytes.now self.now.opened.labels) self.now.partners.now)) }
        ensures { Puts out.old (joined (length self.now.partners.now) (alone_part (label_at self.now.opened.bytes.now self.now.opened.labels) self.now.partners.now)) out.new }
    {
        for i in 0..self.partners.len() {
            self.write_lone(i, out);
        }
    }

    // Each count, and the lines behind it.
    pub fn write_pairing(&self, out: &mut Writer<'_>)
        requires { HasRoom out.old (pairing_text (label_at self.now.opened.bytes.now self.now.opened.labels) self.now.partners.now) }
        ensures { Puts out.old (pairing_text (label_at self.now.opened.bytes.now self.now.opened.labels) self.now.partners.now) out.new }
    {
        let paired = count_paired(self.partners);
        out.number_line(b"pairs ", paired / 2);
        self.write_pairs(out);
        out.number_line(b"alone ", self.partners.len() - paired);
        self.write_alone(out);
    }
}
