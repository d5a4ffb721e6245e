// Rows n and o of document 01, whose sheets are numbered by their count of joints or their bands. Refusals are the documents' numbers, and not
// the library's names, so that a wrong number there is seen.
ghost use Rattle.std.specs.Prelude.{◌≤◌};

use crate::answers::{answered, ask};
use crate::counts::Counts;
use replay::Choices;
use rules::{Call, End};
use samples::{FILL, Joints, filled, no_entries, sheet_of};

// Settle on n joints with no entries: what it answers, and its buffer. Up to 129 joints, as `no_entries` has it.
fn row_n(counts: &mut Counts, n: usize, due: Result<End, u8>, left: [u8; 256])
    requires { n ≤ 129 }
{
    let mut out = [FILL; 256];
    let said = answered(Call::Settle, &no_entries(n), b"", &mut out);
    let comparisons = &mut counts.comparisons;
    // By `as`, since a number up to 129 fits; try_from would have an error that cannot be.
    comparisons.compare("the answer of row n", n as u32, said == due);
    comparisons.compare("the buffer of row n", n as u32, out == left);
}

// Settle on two joints that list each other in this band.
fn row_o(counts: &mut Counts, band: u8, due: Result<End, u8>, left: [u8; 256]) {
    let mut bands = [[0; 8]; 8];
    bands[0][1] = band;
    bands[1][0] = band;
    let said = ask(
        Call::Settle,
        &sheet_of(Joints { count: 2 }, bands),
        &Choices::of(b""),
        256,
    );
    let comparisons = &mut counts.comparisons;
    comparisons.compare(
        "the answer of row o",
        u32::from(band),
        said.said == Some(due),
    );
    comparisons.compare("the buffer of row o", u32::from(band), said.out == left);
}

pub fn try_rows(counts: &mut Counts) {
    row_n(counts, 128, Ok(End::Paired(0)), filled(&[255; 128]));
    row_n(counts, 129, Err(2), filled(&[]));
    row_o(counts, 127, Ok(End::Paired(1)), filled(&[1, 0]));
    row_o(counts, 128, Err(5), filled(&[]));
}
