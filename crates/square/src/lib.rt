// The square of bands, filled from entries: a place has a band only where two joints list each other. An array of arrays, the form that document
// 01 names for it.
#![tactic(auto)]

ghost use Rattle.std.specs.Prelude.{◌≡◌, ℕ, Bool};
ghost use Rattle.sections.specs.declared.Entry.{Entry};
ghost use Rattle.sections.specs.Entries.{entries_in};
ghost use Rattle.square.specs.Inside.{Fits, Inside};
ghost use Rattle.square.specs.Mutual.{only, mutual_entries};
ghost use Rattle.square.specs.Square.{blank, placed};

use sections::{ENTRY_WIDTH, Entry};

// Entries that have their places in the square.
#[derive(Clone, Copy)]
pub struct Listings<'a> {
    pub entries: &'a [[u8; ENTRY_WIDTH]],
    ghost inside: { Inside entries.now },
}

impl Listings<'_> {
    // Puts those that pass a test, from the last to the first, into a blank square.
    fn put_if<F: Fn(Entry) -> bool>(&self, test: F, bands: &mut [[u8; 128]; 128])
        requires callable { (e : Entry) → Fits e → F.pre test e }
        requires empty { bands.old ≡ blank }
        ensures { (passes : ℕ → ℕ → Bool) → ((e : Entry) (r : Bool) → F.post test e r → r ≡ passes e.joint e.other)
            → bands.new ≡ placed (only passes (entries_in self.now.entries.now)) }
    {
        for entry in self.entries.iter().rev() {
            let e = Entry::from(*entry);
            if test(e) {
                bands[e.joint][e.other] = e.band;
            }
        }
    }

    // Fills the square with the mutual listings among them.
    pub fn fill(&self, bands: &mut [[u8; 128]; 128])
        ensures { bands.new ≡ placed (mutual_entries (entries_in self.now.entries.now)) }
    {
        let mut listed = [[0u8; 128]; 128];
        *bands = listed;
        self.put_if(|_| true, &mut listed);
        self.put_if(|e| 0 < listed[e.other][e.joint], bands);
    }
}
