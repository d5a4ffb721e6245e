// Tariffs and rebates from the generator, whole and damaged.
ghost use Rattle.std.specs.Prelude.{◌<◌};

use arrayvec::ArrayVec;
use samples::{next, put};

// A byte for the count of steps, seventeen steps, one more than a tariff may have, and no byte more.
pub type Tariff = ArrayVec<u8, 86>;

type Steps = ArrayVec<[u8; 5], 17>;

// What a quote is asked for by: a tariff and a rebate, whole or not.
#[derive(Drop)]
pub struct Terms {
    pub tariff: Tariff,
    pub rebate: u32,
}

impl Terms {
    // What refuses them: 16 of the tariff comes before 17 of the rebate.
    pub fn refused(&self) -> Option<u8> {
        if !is_in_form(&self.tariff) {
            return Some(16);
        }
        (10000 < self.rebate).then_some(17)
    }
}

// The next step begins at pair 1, if it is the first, or 1 to `spread` % 12 + 1 pairs after the one before it.
fn beginning(before: Option<&[u8; 5]>, x: u32, spread: u32) -> u8 {
    let Some(before) = before else {
        return 1;
    };
    let apart = x % (spread % 12 + 1) % 12 + 1;
    // By `as`, since a number below 256 fits; try_from would have an error that cannot be.
    ((u32::from(before[0]) + apart) % 256) as u8
}

// A step whose price has two bytes from each of two numbers of the generator, the low ones first.
fn step(beginning: u8, low: u32, high: u32) -> [u8; 5] {
    let [a, b, _, _] = low.to_le_bytes();
    let [c, d, _, _] = high.to_le_bytes();
    [beginning, a, b, c, d]
}

// So many steps, of which there is room for seventeen. Half of the prices are below 65,536.
fn drawn_steps(seed: u32, count: u8) -> Steps {
    let mut x = next(seed);
    let mut steps = Steps::new();
    for _ in 0..count {
        let a = next(x);
        let b = next(a);
        x = next(b);
        let first = beginning(steps.last(), a, seed);
        let _ = steps.try_push(step(first, b, if a % 2 == 0 { x } else { 0 }));
    }
    steps
}

// A tariff of 1 to 16 steps as it should be, or: empty; no step; seventeen steps; a byte too few; a byte too many; any number for a step to
// begin at; any byte anywhere; the last step from where the one before it begins; any count of steps; one step at the highest price.
// Whole is a case, and no None, since a form need not be wrong: that of the highest price is right too.
#[derive(Clone, Copy)]
pub enum Form {
    Whole,
    Empty,
    NoStep,
    SeventeenSteps,
    Short,
    Long,
    AnyBeginning,
    AnyByte,
    Repeated,
    AnyCount,
    Highest,
}

impl Form {
    // Of 32 tariffs each of the other forms has one.
    pub fn drawn(x: u32) -> Form {
        match x % 32 {
            0 => Form::Empty,
            1 => Form::NoStep,
            2 => Form::SeventeenSteps,
            3 => Form::Short,
            4 => Form::Long,
            5 => Form::AnyBeginning,
            6 => Form::AnyByte,
            7 => Form::Repeated,
            8 => Form::AnyCount,
            9 => Form::Highest,
            _ => Form::Whole,
        }
    }

    // How many steps the tariff has.
    fn count(self, seed: u32) -> u8
        ensures { result < 18 }
    {
        match self {
            Form::NoStep => 0,
            Form::SeventeenSteps => 17,
            Form::Highest => 1,
            _ => (seed % 65537 / 12 % 16) as u8 + 1,
        }
    }

    // How many steps are drawn for so many: where a byte is too many, it is the first of a step more.
    fn drawn_for(self, count: u8) -> u8
        requires { count < 18 }
    {
        match self {
            Form::Long => count + 1,
            _ => count,
        }
    }

    // The steps that are not as they were drawn, by another number of the generator. Where there is one step only, pair 2 is before it.
    fn put_in_steps(self, steps: &mut [[u8; 5]], x: u32) {
        match self {
            Form::AnyBeginning => {
                if let Some(step) = steps.get_mut((x % 16) as usize) {
                    step[0] = any_byte(x);
                }
            }
            Form::Repeated => {
                let before = steps.iter().rev().nth(1).map_or(2, |step| step[0]);
                if let Some(last) = steps.last_mut() {
                    last[0] = before;
                }
            }
            Form::Highest => steps.fill([1, 255, 255, 255, 255]),
            _ => {}
        }
    }

    // The bytes that are not those of the steps and their count, by the same number.
    fn put_in_bytes(self, tariff: &mut Tariff, x: u32) {
        match self {
            Form::Empty => tariff.clear(),
            Form::Short => {
                let _ = tariff.pop();
            }
            Form::Long => tariff.truncate(tariff.len().saturating_sub(4)),
            Form::AnyByte => {
                if let Some(byte) = tariff.get_mut((x % 81) as usize) {
                    *byte = any_byte(x);
                }
            }
            Form::AnyCount => {
                if let Some(count) = tariff.first_mut() {
                    *count = (x % 16) as u8 + 1;
                }
            }
            _ => {}
        }
    }
}

// The second byte of a number of the generator.
fn any_byte(x: u32) -> u8 {
    x.to_le_bytes()[1]
}

// A tariff of this form: its count, its steps, and both put together.
pub fn drawn_tariff(seed: u32, form: Form) -> Tariff {
    let x = next(seed);
    let count = form.count(seed);
    let mut steps = drawn_steps(seed, form.drawn_for(count));
    form.put_in_steps(&mut steps, x);
    let mut tariff = Tariff::new();
    put(&mut tariff, &[count]);
    put(&mut tariff, steps.as_flattened());
    form.put_in_bytes(&mut tariff, x);
    tariff
}

// Has a tariff the form that it should have?
fn is_in_form(tariff: &[u8]) -> bool {
    let Some((count, rest)) = tariff.split_first() else {
        return false;
    };
    let (steps, behind) = rest.as_chunks::<5>();
    (1..=16).contains(count)
        && steps.len() == usize::from(*count)
        && behind.is_empty()
        && steps.first().is_some_and(|step| step[0] == 1)
        && steps.iter().is_sorted_by(|a, b| a[0] < b[0])
}

// A rebate: of eight, one is 0, one is all, two are above all by one or by far, and four are between.
pub fn rebate(x: u32) -> u32 {
    match x % 8 {
        0 => 0,
        1 => 10000,
        2 => 10001,
        3 => u32::MAX,
        _ => next(x) % 10001,
    }
}
