// Settle and shorten on one sheet, beside the rules.
use crate::answers::ask;
use crate::brute::is_stable;
use crate::counts::Counts;
use replay::{Choices, Record, after, longer, odd};
use rules::{Answer, Call, End, Stage, Work, any_of};
use samples::{Joints, Sheet, next};

// A sheet with its number, a fresh working of each call, and how many super-stable matchings there are.
#[derive(Clone, Copy)]
pub struct Case {
    pub round: u32,
    pub sheet: Sheet,
    pub settle: Work,
    pub shorten: Work,
    pub stable: u32,
}

// A list of records, and the two workings after it.
#[derive(Clone, Copy)]
struct Walk {
    list: Choices,
    settle: Work,
    shorten: Work,
}

impl Case {
    fn start(&self) -> Walk {
        Walk {
            list: Choices::of(b""),
            settle: self.settle,
            shorten: self.shorten,
        }
    }

    // A record more: the steps that then stand are replayed from the start.
    fn with(&self, walk: &Walk, record: [u8; 2]) -> Walk {
        let list = longer(&walk.list, &record);
        Walk {
            settle: after(&self.settle, &walk.settle, &list),
            shorten: after(&self.shorten, &walk.shorten, &list),
            list,
        }
    }

    // A byte more, which makes an odd number of them.
    fn with_byte(&self, walk: &Walk, byte: u8) -> Walk {
        Walk {
            list: longer(&walk.list, &[byte]),
            settle: odd(&self.settle),
            shorten: odd(&self.shorten),
        }
    }

    // How long a call's buffer must be: n, or as long as the rankings of the sheet, which follow the count of joints and the labels.
    fn room(&self, call: Call) -> usize {
        let n = self.sheet.n.count;
        let bytes: &[u8] = &self.sheet.bytes;
        match call {
            Call::Settle => n,
            Call::Shorten => bytes.len().saturating_sub(1 + 16 * n),
        }
    }

    fn compare(&self, counts: &mut Counts, what: &'static str, agrees: bool) {
        counts.comparisons.compare(what, self.round, agrees);
    }

    // What a call answers, and every byte of its buffer.
    fn compare_answer(&self, counts: &mut Counts, call: Call, said: &Answer, due: &Answer) {
        counts.note_answer(call, due.said);
        self.compare(counts, "the answer", said.said == due.said);
        self.compare(counts, "the buffer", said.out == due.out);
    }

    // One call on a list, after which its working ends so.
    fn try_call(&self, counts: &mut Counts, list: &Choices, end: &Work) {
        let said = ask(end.call, &self.sheet, list, 256);
        let due = end.answered();
        self.compare_answer(counts, end.call, &said, &due);
        self.compare(counts, "the counts", said.counts == due.counts);
    }

    // The end of settle's working beside every matching: a pairing is super-stable, and none said only where there is no such pairing.
    fn compare_end(&self, counts: &mut Counts, end: &Work) {
        let agrees = match end.stage {
            Stage::Refused(_) => return,
            Stage::Ended(End::Paired(_)) => is_stable(&self.sheet.bands, &end.partners()),
            _ => self.stable == 0,
        };
        self.compare(counts, "the verdict of the rules", agrees);
    }

    // Both calls on a list.
    fn try_walk(&self, counts: &mut Counts, walk: &Walk) {
        let end = walk.settle.ended();
        self.try_call(counts, &walk.list, &end);
        self.compare_end(counts, &end);
        self.try_call(counts, &walk.list, &walk.shorten.ended());
    }

    // A list that grows by records within settle's rules. Each is tried, and with any record in its place. A record that is refused is
    // tried too, and left out.
    fn try_grown(&self, counts: &mut Counts, seed: u32) {
        let mut walk = self.start();
        let mut x = seed;
        for _ in 0..20 {
            let y = next(x);
            x = next(y);
            self.try_walk(counts, &self.with(&walk, any_record(y, self.sheet.n)));
            let record = likely_record(walk.settle.allowed(), x);
            let grown = self.with(&walk, record.into());
            self.try_walk(counts, &grown);
            if !grown.settle.is_refused() {
                counts.note_record(record, walk.settle.stage);
                walk = grown;
            }
        }
    }

    // A list of one to four records, whatever they are, and perhaps a byte more.
    fn try_drawn(&self, counts: &mut Counts, x: u32) {
        let mut walk = self.start();
        let mut y = x;
        for _ in 0..=x % 4 {
            y = next(y);
            walk = self.with(&walk, any_record(y, self.sheet.n));
        }
        if y % 4 == 0 {
            walk = self.with_byte(&walk, any_byte(y, self.sheet.n));
        }
        self.try_walk(counts, &walk);
    }

    // Buffers as long as they must be, and a byte too short, which is refused before an odd number of bytes is. Elsewhere they are longer.
    fn try_rooms(&self, counts: &mut Counts, fresh: &Work) {
        let call = fresh.call;
        let room = self.room(call);
        let said = ask(call, &self.sheet, &Choices::of(b""), room);
        self.compare_answer(counts, call, &said, &fresh.ended().answered());
        if room == 0 {
            return;
        }
        let mut refused = *fresh;
        refused.stage = Stage::Refused(9);
        let odd = longer(&Choices::of(b""), &[0]);
        let short = ask(call, &self.sheet, &odd, room - 1);
        self.compare_answer(counts, call, &short, &refused.answered());
    }

    // Buffers, and lists of records.
    pub fn try_calls(&self, counts: &mut Counts, seed: u32) {
        let x = next(seed);
        let y = next(x);
        self.try_rooms(counts, &self.settle);
        self.try_rooms(counts, &self.shorten);
        self.try_grown(counts, x);
        self.try_drawn(counts, x);
        self.try_grown(counts, y);
        self.try_drawn(counts, y);
    }
}

// A joint, or n, or 255.
fn any_byte(x: u32, n: Joints) -> u8 {
    // By `as`, here and below, since each number fits and usize has no From<u32>; try_from would have an error that cannot be.
    let k = (x % 65537) as usize % (n.count + 2);
    if n.count < k { 255 } else { k as u8 }
}

// Any record: of eight, three are steps of a joint or of what is none, one sets a mark of 0 to 9, two return to one and two are no kind.
fn any_record(x: u32, n: Joints) -> [u8; 2] {
    let mark = (x % 65537 / 128 % 10) as u8;
    match x % 65537 / 16 % 8 {
        0 | 1 | 2 => Record::Step(any_byte(x, n)).into(),
        3 => Record::Mark(mark).into(),
        4 | 5 => Record::Return(mark).into(),
        6 => [3, mark],
        _ => [255, mark],
    }
}

// A record that is meant to be within settle's rules: of eight, five are steps of a joint that is allowed, two set a mark of 0 to 2 and one
// returns. Where nobody is allowed to step, those return too.
fn likely_record(joints: u8, x: u32) -> Record {
    let mark = (x % 65537 / 8 % 3) as u8;
    match x % 8 {
        0 => Record::Return(mark),
        1 | 2 => Record::Mark(mark),
        _ if joints == 0 => Record::Return(mark),
        _ => Record::Step(any_of(joints, x / 8)),
    }
}
