// Records for the test programs: the steps standing are worked out from the records alone and replayed by the rules.
#![tactic(auto)]

ghost use Rattle.std.specs.Prelude.{◌<◌, ◌≤◌, IfSome, length};

use arrayvec::ArrayVec;
use rules::{Stage, Work};
use samples::{Bytes, put};

// Bytes of choices: two for each record, and perhaps one more.
pub type Choices = Bytes<64>;

// A record that a list may have: a step of a joint, a mark set, a return to a mark.
#[derive(Clone, Copy, PartialEq, Eq)]
pub enum Record {
    Step(u8),
    Mark(u8),
    Return(u8),
}

impl Record {
    // None for two bytes of no kind, which no TryFrom's error would say more of.
    pub fn read(bytes: [u8; 2]) -> Option<Record> {
        match bytes {
            [0, joint] => Some(Record::Step(joint)),
            [1, mark] => Some(Record::Mark(mark)),
            [2, mark] => Some(Record::Return(mark)),
            _ => None,
        }
    }
}

impl From<Record> for [u8; 2] {
    fn from(record: Record) -> [u8; 2] {
        match record {
            Record::Step(joint) => [0, joint],
            Record::Mark(mark) => [1, mark],
            Record::Return(mark) => [2, mark],
        }
    }
}

// The choices, and bytes more if there is room.
pub fn longer(list: &Choices, bytes: &[u8]) -> Choices {
    let mut more: ArrayVec<u8, 64> = ArrayVec::new();
    put(&mut more, list);
    put(&mut more, bytes);
    Choices::of(&more)
}

// The last record that sets a mark.
fn last_set(records: &[[u8; 2]], mark: u8) -> Option<usize>
    ensures { IfSome result (λ k. k < length records.now) }
{
    records
        .iter()
        .rposition(|record| *record == <[u8; 2]>::from(Record::Mark(mark)))
}

// Before which records do the steps stand that stand after a list of them and one more: those where its mark was last set, for a return.
fn standing_before(records: &[[u8; 2]], last: [u8; 2]) -> &[[u8; 2]]
    ensures { length result.now ≤ length records.now }
{
    let Some(Record::Return(mark)) = Record::read(last) else {
        return records;
    };
    match last_set(records, mark) {
        Some(k) => &records[..k],
        None => records,
    }
}

// The joints of the steps standing after records, the last of them first. No `for`, since a return jumps back to where its mark was set.
fn standing(records: &[[u8; 2]]) -> ArrayVec<u8, 32> {
    let mut back = ArrayVec::new();
    let mut rest = records;
    while let Some((last, before)) = rest.split_last() {
        if let Some(Record::Step(joint)) = Record::read(*last) {
            let _ = back.try_push(joint);
        }
        rest = standing_before(before, *last);
    }
    back
}

// 14 for no kind; 15 for a mark above 7, or a return to one not set. Refusals are the documents' numbers, and not the library's names, so that
// a wrong number there is seen.
fn fault(before: &[[u8; 2]], last: [u8; 2]) -> Option<u8> {
    match Record::read(last) {
        None => Some(14),
        Some(Record::Step(_)) => None,
        Some(Record::Mark(mark)) if mark < 8 => None,
        Some(Record::Return(mark)) if mark < 8 && last_set(before, mark).is_some() => None,
        Some(_) => Some(15),
    }
}

fn refused(work: &Work, number: u8) -> Work {
    let mut next = *work;
    next.stage = Stage::Refused(number);
    next
}

// The working after a list, where w is the working before its last record. After a refused record nothing is met.
pub fn after(fresh: &Work, w: &Work, list: &Choices) -> Work {
    if w.is_refused() {
        return *w;
    }
    let (records, _) = list.as_chunks::<2>();
    let Some((last, before)) = records.split_last() else {
        return *w;
    };
    if let Some(number) = fault(before, *last) {
        return refused(w, number);
    }
    let mut next = *fresh;
    for joint in standing(records).iter().rev() {
        next.choose(*joint);
    }
    next
}

// An odd number of bytes is refused before any record is met.
pub fn odd(fresh: &Work) -> Work {
    refused(fresh, 14)
}
