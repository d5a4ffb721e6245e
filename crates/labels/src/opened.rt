// An opened sheet.
ghost use Rattle.std.specs.Prelude.{◌≡◌, ◌+◌, ◌*◌, ◌<◌, ◌≤◌, length};
ghost use Rattle.sections.specs.Labels.{label_at};

use sections::LABEL_WIDTH;

// The lent bytes, and where the labels and the rankings begin in them. Places and no slices: document 01's form, lent bytes and where each
// section begins.
#[derive(Clone, Copy)]
pub struct Opened<'a> {
    pub bytes: &'a [u8],
    pub labels: usize,
    pub rankings: usize,
    ghost ordered: { labels ≤ rankings },
    ghost inside: { rankings ≤ length bytes.now },
}

impl<'a> Opened<'a> {
    pub fn new(bytes: &'a [u8], labels: usize, rankings: usize) -> Opened<'a>
        requires { (labels ≤ rankings) × (rankings ≤ length bytes.now) }
        ensures { (result.bytes ≡ bytes.entry) × ((result.labels ≡ labels) × (result.rankings ≡ rankings)) }
    {
        Opened {
            bytes,
            labels,
            rankings,
        }
    }

    // Label i, which lies before the rankings: the very 16 bytes of the sheet.
    pub fn label(self, i: usize) -> &'a [u8]
        requires { (i < 128) × (self.labels + 16 * i + 16 ≤ self.rankings) }
        ensures { result.now ≡ label_at self.entry.bytes.now self.entry.labels i }
    {
        let (section, _) = self.bytes[self.labels..self.rankings].as_chunks::<LABEL_WIDTH>();
        &section[i]
    }
}
