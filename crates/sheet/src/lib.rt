// Reads whole sheets: bytes from outside, in the format of documents 01 and 02.
#![tactic(auto)]

mod rankings;

ghost use Rattle.std.specs.Prelude.{◌≡◌, Err, MatchResult};
ghost use Rattle.refusals.specs.Numbers.{answered};
ghost use Rattle.sheet.specs.Refusals.{extents_fault};
ghost use Rattle.sheet.specs.Readings.{parts_of, reading_of, square_in, ReadsAs};

use parents::{parents_extent, read_third};
pub use rankings::Rankings;
use refusals::Refusal;
use sections::{ENTRY_WIDTH, Joints};
use square::Listings;

// Where the labels begin.
const LABELS: usize = 1;

// The parts of a sheet: how many joints and entries; where the labels and the entries begin, and where the third section does, with its count:
// at the sheet's end, if it is left out. Places and no slices, since document 01 has an opened sheet carry where each section begins. A bare
// count and no `Joints`: `parts_of` answers for any bytes, and a `Joints` comes with its bound, which not all have.
#[derive(Clone, Copy)]
pub struct Parts {
    pub joints: usize,
    pub entries: usize,
    pub labels: usize,
    pub rankings: usize,
    pub parents: usize,
}

// What an accepted sheet is read as.
#[derive(Clone, Copy)]
pub struct Sheet {
    pub parts: Parts,
    pub rankings: Rankings,
}

// Where the sections lie, and the labels' contents.
fn extents(sheet: &[u8]) -> Result<Parts, Refusal>
    ensures { result ≡ answered (extents_fault sheet.now) (parts_of sheet.now) }
{
    let Some((joints, labels)) = sheet.split_first() else {
        return Err(Refusal::SheetCutShort);
    };
    let n = Joints::try_from(*joints)?;
    let size = sections::read_labels(labels, n)?;
    let count = LABELS + size;
    let Some(bytes) = sheet[count..].first_chunk::<2>() else {
        return Err(Refusal::SheetCutShort);
    };
    let m = usize::from(u16::from_le_bytes(*bytes));
    let start = count + 2;
    let end = start + ENTRY_WIDTH * m;
    if sheet.len() < end {
        return Err(Refusal::SheetCutShort);
    }
    parents_extent(&sheet[end..])?;
    Ok(Parts {
        joints: n.count,
        entries: m,
        labels: LABELS,
        rankings: start,
        parents: end,
    })
}

// Reads a whole sheet, and fills a lent square with its mutual listings if it is accepted; a refused one leaves the square as it was. For calls
// that should take little stack: `read` answers a square, which lies on it more than once.
pub fn lists(sheet: &[u8], bands: &mut [[u8; 128]; 128]) -> Result<Parts, Refusal>
    ensures value { result ≡ reading_of sheet.now }
    ensures bands_after { bands.new ≡ square_in sheet.now bands.old }
{
    let parts = extents(sheet)?;
    let (entries, _) = sheet[parts.rankings..parts.parents].as_chunks::<ENTRY_WIDTH>();
    sections::read_entries(entries, parts.joints)?;
    read_third(&sheet[parts.parents..], parts.joints)?;
    Listings { entries }.fill(bands);
    Ok(parts)
}

// Reads a whole sheet, with the square of its mutual listings. Every input is accepted, or refused with the first number that applies.
pub fn read(sheet: &[u8]) -> Result<Sheet, Refusal>
    ensures { MatchResult result (λ read. ReadsAs sheet.now read) (λ refusal. reading_of sheet.now ≡ Err refusal) }
{
    let mut bands = [[0u8; 128]; 128];
    let parts = lists(sheet, &mut bands)?;
    let joints = Joints {
        count: parts.joints,
    };
    Ok(Sheet {
        parts,
        rankings: Rankings { joints, bands },
    })
}
