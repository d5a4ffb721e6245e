// Why a call is refused: each refusal by name, and the number by which documents, C and printed texts know it.
#![tactic(auto)]

ghost use Rattle.std.specs.Prelude.{◌≡◌};
ghost use Rattle.refusals.specs.Numbers.{number_of};

// 7 is the number of no refusal.
#[derive(Clone, Copy, Debug, PartialEq, Eq)]
pub enum Refusal {
    // the sheet ends too early
    SheetCutShort = 1,
    // more than 128 joints
    TooManyJoints = 2,
    // a label breaks its rule, or repeats an earlier one
    BadLabel = 3,
    // an entry names a joint that is not there, or itself
    NoSuchJoint = 4,
    // band 0, or a band above 127
    BadBand = 5,
    // an entry that is not after the one before it
    EntryNotAfter = 6,
    // bytes after the sheet's last section
    BytesAfterSheet = 8,
    // the buffer is too short
    OutTooShort = 9,
    // the offered pairing is none
    NoPairingOffered = 10,
    // the chosen joint does not wait, in phase one
    ChoiceDoesNotWait = 11,
    // the chosen list is not longer than one, in phase two
    ChoiceHasNoList = 12,
    // a step when the working has ended
    ChoiceLeftOver = 13,
    // an odd number of choice bytes, or a record of no kind
    BadRecord = 14,
    // a mark above 7, or a return to a mark that is not set
    NoSuchMark = 15,
    // the tariff breaks its form
    BadTariff = 16,
    // the rebate is above 10,000
    RebateTooHigh = 17,
    // the parents are not one for each joint, each 255 or lower
    BadParents = 18,
    // the text is not of a hierarchy's form
    BadHierarchy = 19,
    // a name that cannot be a label, or that came before
    BadName = 20,
}

impl From<Refusal> for u8 {
    ghost from_gives = { λ refusal number. number ≡ number_of refusal };

    fn from(refusal: Refusal) -> u8 {
        refusal as u8
    }
}
