// Sheets for the test programs: of up to 8 joints from a fixed generator, and long ones without entries; and filled buffers.
#![tactic(auto)]

ghost use Rattle.std.specs.Prelude.{◌≡◌, ◌<◌, ◌≤◌, length, min, take};

use arrayvec::ArrayVec;
use std::ops::DerefSlice;

// How many joints there are: at most 8, which bands and pairings have room for. The test programs stand apart from the library, so that no one
// type with a const parameter serves both.
#[derive(Clone, Copy)]
pub struct Joints {
    pub count: usize,
    ghost few: { count ≤ 8 },
}

// The band of b on a's list stands in row a at place b, 0 for unlisted.
pub type Bands = [[u8; 8]; 8];

// Of four pairs about `skip` are not listed; of eight others about `lone` are listed by one side alone. Bands differ by up to `width`,
// below 64, and are worse by `turn`, up to 8, for each joint between, round the ring of joints.
#[derive(Clone, Copy)]
pub struct Style {
    pub skip: u32,
    pub lone: u32,
    pub width: u32,
    pub turn: u8,
}

// A joint of a pair, by which of the two has the lower number.
#[derive(Clone, Copy, PartialEq, Eq)]
enum Side {
    Lower,
    Higher,
}

impl Style {
    fn band(self, x: u32, step: u8) -> u8
        requires { step < 8 }
    {
        // By `as`, here and below, since each number fits and usize has no From<u32>; try_from would have an error that cannot be.
        let spread = (x / 4 % (self.width % 64 + 1) % 64) as u8;
        spread + self.turn.min(8) * step + 1
    }

    // The side of a pair that does not list the other, if one does not.
    fn silent(self, x: u32) -> Option<Side> {
        if self.lone <= x / 512 % 8 {
            return None;
        }
        Some(if x / 4096 % 2 == 0 {
            Side::Lower
        } else {
            Side::Higher
        })
    }
}

// Up to so many bytes, in an array with what is behind them. For types that are copied, as an ArrayVec is not.
#[derive(Clone, Copy)]
pub struct Bytes<const ROOM: usize> {
    array: [u8; ROOM],
    len: usize,
    ghost within: { len ≤ ROOM },
}

impl<const ROOM: usize> Bytes<ROOM> {
    // These bytes, as many as there is room for.
    pub fn of(bytes: &[u8]) -> Bytes<ROOM>
        ensures { take result.len result.array ≡ take ROOM bytes.now }
    {
        Bytes {
            array: filled(bytes),
            len: bytes.len().min(ROOM),
        }
    }
}

impl<const ROOM: usize> DerefSlice for Bytes<ROOM> {
    type Elem = u8;

    ghost deref_gives = { λ bytes shown. shown ≡ take bytes.len bytes.array };

    fn deref(&self) -> &[u8] {
        &self.array[..self.len]
    }
}

// A sheet: its joints, its bands and its bytes, of which 8 joints have up to 1 + 8 × 16 + 2 + 64 × 3.
#[derive(Clone, Copy)]
pub struct Sheet {
    pub n: Joints,
    pub bands: Bands,
    pub bytes: Bytes<384>,
}

// The bytes of a long sheet: room for 128 joints with an entry of each, and 129 without.
pub type LongSheet = ArrayVec<u8, 2436>;

// The generator's next number.
pub fn next(x: u32) -> u32
    ensures { result < 65537 }
{
    (75 * (x % 65537) + 74) % 65537
}

// The pair of a and b is not listed, or each has a band in the other's list, or one of them alone. Returns where the generator then is.
fn list_pair(bands: &mut Bands, x: u32, style: Style, n: Joints, a: usize, b: usize) -> u32
    requires { (a < b) × (b < n.count) }
{
    let y = next(x);
    if y % 4 < style.skip {
        return y;
    }
    let z = next(y);
    let step = b - a;
    let silent = style.silent(z);
    if silent != Some(Side::Lower) {
        bands[a][b] = style.band(y, step as u8);
    }
    if silent != Some(Side::Higher) {
        bands[b][a] = style.band(z, (n.count - step) as u8);
    }
    z
}

// The bands of n joints.
fn bands_of(n: Joints, seed: u32, style: Style) -> Bands {
    let mut x = seed;
    let mut bands = [[0u8; 8]; 8];
    for a in 0..n.count {
        for b in a + 1..n.count {
            x = list_pair(&mut bands, x, style, n, a, b);
        }
    }
    bands
}

// Bytes at the end of a sheet, as many as it has room for.
pub fn put<const ROOM: usize>(sheet: &mut ArrayVec<u8, ROOM>, bytes: &[u8]) {
    let size = bytes.len().min(sheet.remaining_capacity());
    let _ = sheet.try_extend_from_slice(&bytes[..size]);
}

// What buffers are filled with before a call.
pub const FILL: u8 = 170;

// A filled buffer with these bytes at its start.
pub fn filled<const ROOM: usize>(bytes: &[u8]) -> [u8; ROOM]
    ensures { take (min (length bytes.now) ROOM) result ≡ take ROOM bytes.now }
{
    let mut out = [FILL; ROOM];
    let size = bytes.len().min(ROOM);
    out[..size].copy_from_slice(&bytes[..size]);
    out
}

// A label of two bytes, and zeros after it.
fn put_label<const ROOM: usize>(sheet: &mut ArrayVec<u8, ROOM>, label: [u8; 2]) {
    put(sheet, &label);
    put(sheet, &[0; 14]);
}

// So many labels, which are 0a, 0b and so on; those from 3328 on, which no first byte is left for, begin with a zero.
pub fn put_labels<const ROOM: usize>(sheet: &mut ArrayVec<u8, ROOM>, count: usize) {
    for i in 0..count {
        let first = u8::try_from(48 + i / 16).unwrap_or(0);
        put_label(sheet, [first, 97 + (i % 16) as u8]);
    }
}

// The sheet of n joints with these bands. Labels are a, b, c and so on.
pub fn sheet_of(n: Joints, bands: Bands) -> Sheet {
    let mut bytes: ArrayVec<u8, 384> = ArrayVec::new();
    put(&mut bytes, &[n.count as u8]);
    for i in 0..n.count {
        put_label(&mut bytes, [97 + i as u8, 0]);
    }
    let entries = bands.as_flattened().iter().filter(|k| **k != 0).count();
    put(&mut bytes, &[(entries % 256) as u8, 0]);
    for a in 0..8 {
        for b in 0..8 {
            let band = bands[a][b];
            if band != 0 {
                put(&mut bytes, &[a as u8, b as u8, band]);
            }
        }
    }
    Sheet {
        n,
        bands,
        bytes: Bytes::of(&bytes),
    }
}

// A sheet of n joints that the generator draws.
pub fn drawn_sheet(n: Joints, seed: u32, style: Style) -> Sheet {
    sheet_of(n, bands_of(n, seed, style))
}

// Widths and turns: from many ties to few, from lists that lean nowhere to lists that lean to the next joint.
const LEANINGS: [(u32, u8); 4] = [(2, 0), (5, 2), (11, 4), (59, 8)];

// 0 to 8 joints, then 2 to 8.
fn joints_of(round: u32) -> Joints {
    let k = (round % 16) as usize;
    Joints {
        count: if k < 9 { k } else { k - 7 },
    }
}

// The sheet of a round, which settles its number of joints and its style.
pub fn varied_sheet(round: u32, seed: u32) -> Sheet {
    let (width, turn) = LEANINGS[(round / 48 % 4) as usize];
    let style = Style {
        skip: round / 16 % 3,
        lone: if round / 192 % 2 == 0 { 2 } else { 0 },
        width,
        turn,
    };
    drawn_sheet(joints_of(round), seed, style)
}

// The count and the labels of up to 129 joints. A bound and no type: callers have a number, and both functions would take it out again at once.
pub fn long_labels(n: usize) -> LongSheet
    requires { n ≤ 129 }
{
    let mut sheet = ArrayVec::new();
    put(&mut sheet, &[n as u8]);
    put_labels(&mut sheet, n);
    sheet
}

// A sheet of up to 129 joints with no entries.
pub fn no_entries(n: usize) -> LongSheet
    requires { n ≤ 129 }
{
    let mut sheet = long_labels(n);
    put(&mut sheet, &[0, 0]);
    sheet
}

// Has a sheet an entry that is not returned?
pub fn is_one_sided(bands: &Bands) -> bool {
    (0..8).any(|a| (0..8).any(|b| bands[a][b] != 0 && bands[b][a] == 0))
}
