// Choices for a sheet: a mark and some steps within the rules; after them nothing, a return, or what is refused.
use replay::{Choices, Record, longer};
use rules::{End, Work, any_of};
use samples::next;

// Choices, and what becomes of the working: an end, or the number of a refusal; nothing where it has not ended.
#[derive(Clone, Copy)]
pub struct Walk {
    pub list: Choices,
    pub end: Option<Result<End, u8>>,
}

// Steps, the working after them, and where the generator stands.
#[derive(Clone, Copy)]
struct Path {
    at: u32,
    list: Choices,
    work: Work,
}

// Mark 3, and up to `most` steps of any joints that are allowed.
fn steps(start: &Work, seed: u32, most: u32) -> Path {
    let mut path = Path {
        at: seed,
        list: longer(&Choices::of(b""), &<[u8; 2]>::from(Record::Mark(3))),
        work: *start,
    };
    for _ in 0..most {
        let joints = path.work.allowed();
        if joints == 0 {
            break;
        }
        path.at = next(path.at);
        let joint = any_of(joints, path.at);
        path.list = longer(&path.list, &<[u8; 2]>::from(Record::Step(joint)));
        path.work.choose(joint);
    }
    path
}

// What becomes of a working without choices.
fn end_of(start: &Work) -> Option<Result<End, u8>> {
    start.ended().answered().said
}

// What becomes of one that a step is made in, which may be refused.
fn end_after(start: &Work, mut work: Work, joint: u8) -> Option<Result<End, u8>> {
    work.choose(joint);
    if work.is_refused() {
        return work.answered().said;
    }
    end_of(start)
}

fn ending(list: &Choices, bytes: &[u8], end: Option<Result<End, u8>>) -> Walk {
    Walk {
        list: longer(list, bytes),
        end,
    }
}

// Up to 11 steps, and what comes last: of sixteen, a byte more; a byte more after a refused record; no kind; a mark that is not set, to
// return to; no mark, to return to and to set; a step of any number up to 9, and of no joint; a return to the start; or nothing. Where
// nothing is refused, what becomes of the working is what becomes of it without choices.
// No enum for what comes last: it is drawn and used here alone, so each case would stand in three lists, and here it stands in one.
pub fn drawn_walk(start: &Work, seed: u32) -> Walk {
    let path = steps(start, seed, seed / 16 % 12);
    let list = &path.list;
    // By `as`, since a number below 10 fits; try_from would have an error that cannot be.
    let joint = (seed % 65537 / 192 % 10) as u8;
    match seed % 16 {
        0 => ending(list, &[0], Some(Err(14))),
        1 => ending(list, &[0, 200, 0], Some(Err(14))),
        2 => ending(list, &[3, 0], Some(Err(14))),
        3 => ending(list, &<[u8; 2]>::from(Record::Return(5)), Some(Err(15))),
        4 => ending(list, &<[u8; 2]>::from(Record::Return(8)), Some(Err(15))),
        5 => ending(list, &<[u8; 2]>::from(Record::Mark(8)), Some(Err(15))),
        6 => ending(
            list,
            &<[u8; 2]>::from(Record::Step(200)),
            end_after(start, path.work, 200),
        ),
        7 | 8 => ending(
            list,
            &<[u8; 2]>::from(Record::Step(joint)),
            end_after(start, path.work, joint),
        ),
        9 => ending(list, &<[u8; 2]>::from(Record::Return(3)), end_of(start)),
        _ => ending(list, &[], end_of(start)),
    }
}
