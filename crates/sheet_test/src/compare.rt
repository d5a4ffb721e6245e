// Compares what reading a sheet answers with what a case expects.
use crate::build::number_of;
use labels::opened::Opened;
use sheet::Parts;
use skeleton::follow;

type Bands = [[u8; 128]; 128];

// What a square holds before a sheet is read: no band.
const MARK: u8 = 255;

// Reads a sheet: its parts, or a refusal. Refusals are the documents' numbers, and not the library's names, so that a wrong number there is
// seen.
fn read(sheet: &[u8], bands: &mut Bands) -> Result<Parts, u8> {
    sheet::lists(sheet, bands).map_err(u8::from)
}

// Do all pairs follow where nobody of n joints is paired? Or the number of a refusal.
fn follow_alone(sheet: &[u8], n: usize) -> Result<bool, u8> {
    let strays = follow(sheet, &[255u8; 128][..n.min(128)]).map_err(u8::from)?;
    Ok(strays.is_none())
}

// Is the word, if there is one, the number?
fn says(word: Option<&[u8]>, number: usize) -> bool {
    word.and_then(number_of) == Some(number)
}

// Refused by the number that is expected, by follow too, and the square is as it was. Words after the number are not looked at.
fn is_refused_so(sheet: &[u8], number: u8, bands: &Bands, expected: &[u8]) -> bool {
    bands.as_flattened().iter().all(|band| *band == MARK)
        && follow_alone(sheet, 0) == Err(number)
        && says(expected.split(|b| *b == b' ').next(), usize::from(number))
}

// Accepted with the parts that are expected, and as many places of the square with a band. Words after them are not looked at.
fn is_accepted_so(parts: Parts, bands: &Bands, expected: &[u8]) -> bool {
    let places = bands
        .as_flattened()
        .iter()
        .filter(|band| **band != 0)
        .count();
    let mut words = expected.split(|b| *b == b' ');
    words.next() == Some(b"ok")
        && says(words.next(), parts.joints)
        && says(words.next(), parts.entries)
        && says(words.next(), parts.labels)
        && says(words.next(), parts.rankings)
        && says(words.next(), parts.parents)
        && says(words.next(), places)
}

// Nobody paired follows, if the sheet has a third section, and else it is missed.
fn is_followed_so(sheet: &[u8], parts: Parts) -> bool {
    let due = if parts.parents < sheet.len() {
        Ok(true)
    } else {
        Err(18)
    };
    follow_alone(sheet, parts.joints) == due
}

// Is k the band of b on a's list?
fn band_is(bands: &Bands, a: usize, b: usize, k: usize) -> bool {
    let band = bands.get(a).and_then(|row| row.get(b));
    band.is_some_and(|band| usize::from(*band) == k)
}

// Is the text label i? Asked of the whole sheet, so that the 16 bytes behind the last label can be asked for too.
fn label_is(sheet: &[u8], i: usize, text: &[u8]) -> bool {
    i < 128 && 17 + 16 * i <= sheet.len() && Opened::new(sheet, 1, sheet.len()).label(i) == text
}

// One check of an accepted sheet: `label i text`, or else `band a b k`.
fn check_holds(sheet: &[u8], bands: &Bands, claim: &[u8]) -> bool {
    let mut words = claim.split(|b| *b == b' ');
    let kind = words.next();
    let (Some(i), Some(second)) = (words.next().and_then(number_of), words.next()) else {
        return false;
    };
    if kind == Some(b"label") {
        return label_is(sheet, i, second);
    }
    match (number_of(second), words.next().and_then(number_of)) {
        (Some(b), Some(k)) => band_is(bands, i, b, k),
        _ => false,
    }
}

// What a sheet that does not read as its line says was read as. No Option, since this is the error of a Result.
#[derive(Clone, Copy)]
pub enum Differs {
    Accepted,
    Refused(u8),
}

impl Differs {
    // The number by which it is written.
    pub fn number(self) -> u8 {
        match self {
            Differs::Accepted => 0,
            Differs::Refused(number) => number,
        }
    }
}

// Does the sheet read as its line says?
pub fn read_as(sheet: &[u8], expected: &[u8], checks: &[u8]) -> Result<(), Differs> {
    let mut bands = [[MARK; 128]; 128];
    match read(sheet, &mut bands) {
        Err(number) if is_refused_so(sheet, number, &bands, expected) => Ok(()),
        Err(number) => Err(Differs::Refused(number)),
        Ok(parts) => {
            let is_so = is_accepted_so(parts, &bands, expected)
                && is_followed_so(sheet, parts)
                && (checks.is_empty()
                    || checks
                        .split(|b| *b == b',')
                        .all(|claim| check_holds(sheet, &bands, claim)));
            if is_so {
                Ok(())
            } else {
                Err(Differs::Accepted)
            }
        }
    }
}
