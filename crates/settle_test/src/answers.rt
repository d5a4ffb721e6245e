// What the library answers, in the form of the rules.
use calls::counting::count_working;
use calls::settling::settle;
use calls::shortening::shorten;
use replay::Choices;
use rules::{Answer, Call, Counts, End, Phase};
use samples::{FILL, Sheet};

// The library's phase as the rules'. No From, since both are types of other crates, which stand apart; quote_test needs the other way only.
fn phase_of(phase: calls::Phase) -> Phase {
    match phase {
        calls::Phase::One => Phase::One,
        calls::Phase::Two => Phase::Two,
    }
}

fn settled(sheet: &[u8], choices: &[u8], out: &mut [u8]) -> Result<End, u8> {
    match settle(sheet, choices, out).map_err(u8::from)? {
        calls::End::None(phase) => Ok(End::None(phase_of(phase))),
        calls::End::Paired(count) => Ok(End::Paired(count)),
    }
}

fn shortened(sheet: &[u8], choices: &[u8], out: &mut [u8]) -> Result<End, u8> {
    match shorten(sheet, choices, out).map_err(u8::from)? {
        None => Ok(End::None(Phase::One)),
        Some(count) => Ok(End::Lists(count)),
    }
}

// The library's counts as the rules'. No From, since both are types of other crates, as at `phase_of`.
fn counted(call: Call, sheet: &[u8], choices: &[u8]) -> Counts {
    let counts = count_working(sheet, choices, call == Call::Settle);
    Counts {
        refused: counts.refusal.map(u8::from),
        proposals: counts.proposals,
        cuts: counts.cuts,
    }
}

pub fn answered(call: Call, sheet: &[u8], choices: &[u8], out: &mut [u8]) -> Result<End, u8> {
    match call {
        Call::Settle => settled(sheet, choices, out),
        Call::Shorten => shortened(sheet, choices, out),
    }
}

// A call that may write the first `room` bytes of a filled buffer; and the counts.
pub fn ask(call: Call, sheet: &Sheet, choices: &Choices, room: usize) -> Answer {
    let mut out = [FILL; 256];
    let said = answered(call, &sheet.bytes, choices, &mut out[..room.min(256)]);
    Answer {
        said: Some(said),
        out,
        counts: counted(call, &sheet.bytes, choices),
    }
}
