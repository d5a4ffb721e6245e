// Sets of up to 8 joints, a bit for each, and tables of them: the set in row a has each b that stands with a. A joint is a plain number, since
// a loop's number is an index as it stands, and a type would have to be made of it in each turn.

ghost use Rattle.std.specs.Prelude.{◌<◌, IfSome};

pub type Set = u8;

pub type Table = [Set; 8];

pub fn has(set: Set, a: usize) -> bool
    requires { a < 8 }
{
    (set >> a) & 1 == 1
}

// The joints for which a test holds.
pub fn set_of(tests: [bool; 8]) -> Set {
    tests
        .iter()
        .rev()
        .fold(0, |set, test| (set << 1) | u8::from(*test))
}

pub fn lowest(set: Set) -> Option<usize>
    ensures { IfSome result (λ a. a < 8) }
{
    (0..8).find(|a| has(set, *a))
}

// A joint of a set: the first from x on, in a ring. By `as`, since a number below 8 fits; try_from would have an error that cannot be.
pub fn any_of(set: Set, x: u32) -> u8 {
    let from = x % 8;
    ((set.rotate_right(from).trailing_zeros() + from) % 8) as u8
}

// The joints whose rows have so many or more.
pub fn rows(table: &Table, least: u32) -> Set {
    set_of(table.map(|row| least <= row.count_ones()))
}

// The highest joint of those whose rows have the most.
pub fn fullest(table: &Table) -> Option<usize>
    ensures { IfSome result (λ a. a < 8) }
{
    let most = table.iter().map(|row| row.count_ones()).max();
    table.iter().rposition(|row| Some(row.count_ones()) == most)
}

// How many rows have b.
pub fn count_column(table: &Table, b: usize) -> usize
    requires { b < 8 }
{
    table.iter().filter(|row| has(**row, b)).count()
}

// The table without the pairs of a with the joints of a set, both ways.
pub fn without(table: Table, a: usize, set: Set) -> Table
    requires { a < 8 }
{
    let mut rest = table;
    rest[a] &= !set;
    for b in 0..8 {
        if has(set, b) {
            rest[b] &= !(1 << a);
        }
    }
    rest
}
