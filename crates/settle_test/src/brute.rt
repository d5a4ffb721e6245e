// The super-stable matchings of a sheet among all matchings of 8 joints.
use reference::{Matchings, Pairing, paired, worth};
use samples::Bands;

pub fn is_stable(bands: &Bands, m: &Pairing) -> bool {
    worth(bands, m) == Ok(None)
}

pub fn count_stable(bands: &Bands, rows: &Matchings) -> u32 {
    // By `as`, since a number of matchings fits; try_from would have an error that cannot be.
    rows.iter().filter(|m| is_stable(bands, m)).count() as u32
}

// Do all of them pair just these joints?
pub fn all_pair(bands: &Bands, rows: &Matchings, joints: u8) -> bool {
    rows.iter()
        .filter(|m| is_stable(bands, m))
        .all(|m| paired(m) == joints)
}
