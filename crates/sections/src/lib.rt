// The sections of a sheet, each read as the part of the sheet that begins after its count.
#![tactic(auto)]

mod entry_section;
mod joints;
mod label_section;

ghost use Rattle.std.specs.Prelude.{◌≡◌};
ghost use Rattle.sections.specs.Entries.{entry_in};

pub use entry_section::read_entries;
pub use joints::{Joints, NO_JOINT, joint_in};
pub use label_section::{read_labels, visible_run};

// The bytes of a label and of an entry.
pub const LABEL_WIDTH: usize = 16;

pub const ENTRY_WIDTH: usize = 3;

// An entry of the rankings: a joint, its candidate, the band.
#[derive(Clone, Copy)]
pub struct Entry {
    pub joint: usize,
    pub other: usize,
    pub band: u8,
}

impl From<[u8; ENTRY_WIDTH]> for Entry {
    ghost from_gives = { λ bytes e. e ≡ entry_in bytes 0 };

    fn from(bytes: [u8; ENTRY_WIDTH]) -> Entry {
        let [joint, other, band] = bytes;
        Entry {
            joint: usize::from(joint),
            other: usize::from(other),
            band,
        }
    }
}
