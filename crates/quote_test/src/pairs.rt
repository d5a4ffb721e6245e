// Numbers of pairs, and their sheets: joints 0 and 1 list each other, 2 and 3, and so on.
ghost use Rattle.std.specs.Prelude.{◌≤◌};

use samples::{LongSheet, long_labels, put};

// How many pairs there are: at most 64, which 128 joints have.
#[derive(Clone, Copy)]
pub struct Pairs {
    pub count: u8,
    ghost few: { count ≤ 64 },
}

impl Pairs {
    // So many pairs, which are at most 64 wherever this is called; the remainder spares the proof that they are.
    // By `as`, since a number below 65 fits; try_from would have an error that cannot be.
    pub fn new(number: u32) -> Pairs {
        Pairs {
            count: (number % 65) as u8,
        }
    }

    // The sheet of these pairs.
    pub fn sheet(self) -> LongSheet {
        let n = 2 * self.count;
        let mut sheet = long_labels(usize::from(n));
        put(&mut sheet, &[n, 0]);
        for i in 0..n {
            let other = if i % 2 == 0 { i + 1 } else { i - 1 };
            put(&mut sheet, &[i, other, 1 + i % 127]);
        }
        sheet
    }
}
