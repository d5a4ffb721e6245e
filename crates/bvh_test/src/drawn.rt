// Texts by their recipes: hierarchies from the generator, word by word, whole or with a word changed.
ghost use Rattle.std.specs.Prelude.{◌<◌};

use crate::spelling::{
    COUNTS, KEYWORDS, STRANGE_NAMES, Text, VALUES, Word, gap_of, name_of, put_word, word_of,
};
use samples::{next, put};

// What a text is a part of: a few joints, many that nest deep, or many.
#[derive(Clone, Copy, PartialEq, Eq)]
pub enum Mode {
    Small,
    Deep,
    Many,
}

impl Mode {
    // Of twelve texts one is deep and one has many joints.
    pub fn of(round: u32) -> Mode {
        match round % 12 {
            10 => Mode::Deep,
            11 => Mode::Many,
            _ => Mode::Small,
        }
    }

    // About how many names a text has.
    pub fn goal(self, x: u32) -> usize
        ensures { result < 200 }
    {
        // By `as`, since usize has no From<u32>; try_from would have an error that cannot be.
        let y = x as usize;
        match self {
            Mode::Deep => 31 + y % 3,
            Mode::Many => 126 + y % 6,
            Mode::Small => 1 + y % 12,
        }
    }

    // Of eight pieces in a block so many are JOINT blocks, until there are enough names, and so many after that.
    fn opens(self, is_short: bool) -> u32 {
        match (self, is_short) {
            (Mode::Deep, true) => 7,
            (Mode::Deep, false) => 1,
            (Mode::Many, true) => 3,
            (Mode::Many, false) => 0,
            (Mode::Small, true) => 3,
            (Mode::Small, false) => 1,
        }
    }
}

// A change of a text: a word is left out, another stands in its place, another stands before it, or the text is cut at a byte.
#[derive(Clone, Copy)]
pub enum Change {
    LeaveOut(usize),
    Replace(usize, Word),
    Insert(usize, Word),
    Cut(usize),
}

// What a text is made by: the generator's seed, a mode, and a change unless it is whole.
#[derive(Clone, Copy)]
pub struct Recipe {
    pub seed: u32,
    pub mode: Mode,
    pub change: Option<Change>,
}

impl Recipe {
    // Word k, if it is one that is inserted.
    fn extra(&self, k: usize) -> Option<Word> {
        match self.change {
            Some(Change::Insert(place, word)) if place == k => Some(word),
            _ => None,
        }
    }

    // What stands for word k, unless it is left out.
    fn changed(&self, k: usize, word: Word) -> Option<Word> {
        match self.change {
            Some(Change::LeaveOut(place)) if place == k => None,
            Some(Change::Replace(place, other)) if place == k => Some(other),
            _ => Some(word),
        }
    }
}

// The pieces of a text: HIERARCHY, a ROOT or a JOINT block up to its channels, an End Site, a closing brace, MOTION with or without words.
#[derive(Clone, Copy, PartialEq, Eq)]
enum Piece {
    Head,
    Root,
    Joint,
    EndSite,
    Closing,
    Last,
}

impl Piece {
    fn first_word(self) -> Word {
        match self {
            Piece::Head => Word::Spelt(b"HIERARCHY"),
            Piece::Root => Word::Spelt(b"ROOT"),
            Piece::Joint => Word::Spelt(b"JOINT"),
            Piece::EndSite => Word::Spelt(b"End"),
            Piece::Closing => Word::Spelt(b"}"),
            Piece::Last => Word::Spelt(b"MOTION"),
        }
    }
}

// Where the walk is: the generator's number, the piece, which of its words comes next and how many they are, how many blocks are open, how many
// names there are; and the number of the gap that came last.
#[derive(Clone, Copy)]
struct Walk {
    at: u32,
    mode: Mode,
    goal: usize,
    piece: Piece,
    word: usize,
    end: usize,
    depth: usize,
    names: usize,
    gap: u32,
}

impl Walk {
    // Which piece comes next, if any.
    fn next_piece(&self, x: u32) -> Option<Piece> {
        let is_short = self.names < self.goal;
        if self.piece == Piece::Last {
            return None;
        }
        if self.depth == 0 {
            return match (is_short, x / 64 % 3) {
                (true, _) => Some(Piece::Root),
                (false, 0) => None,
                (false, _) => Some(Piece::Last),
            };
        }
        Some(match x % 8 {
            7 => Piece::EndSite,
            k if k < self.mode.opens(is_short) => Piece::Joint,
            _ => Piece::Closing,
        })
    }

    fn begin(&mut self, piece: Piece, x: u32) {
        self.piece = piece;
        self.word = 0;
        match piece {
            Piece::EndSite => self.end = 8,
            Piece::Last => self.end = if x / 64 % 3 == 1 { 1 } else { 4 },
            Piece::Closing => {
                self.end = 1;
                self.depth = self.depth.saturating_sub(1);
            }
            _ => {
                self.end = 9;
                self.depth = self.depth.saturating_add(1);
                self.names = self.names.saturating_add(1);
            }
        }
    }

    // A name: a new one, but for some: a keyword, a strange one, any of the others. These are rarer where there are many names.
    fn name(&self, x: u32, y: u32) -> Word {
        let k = if self.mode == Mode::Small {
            y % 64
        } else {
            y % 1024
        };
        match k {
            0 => Word::Spelt(KEYWORDS[x as usize % 10]),
            1 => Word::Spelt(STRANGE_NAMES[x as usize % 9]),
            2 => name_of(x as usize),
            _ => name_of(self.names),
        }
    }

    // The word that comes next.
    fn next_word(&self, x: u32, y: u32) -> Word {
        match (self.word, self.piece == Piece::EndSite) {
            (0, _) => self.piece.first_word(),
            (1, true) => Word::Spelt(b"Site"),
            (1, false) => self.name(x / 64, y),
            (2, _) => Word::Spelt(b"{"),
            (3, _) => Word::Spelt(b"OFFSET"),
            (7, true) => Word::Spelt(b"}"),
            (7, false) => Word::Spelt(b"CHANNELS"),
            (8, _) => Word::Spelt(COUNTS[y as usize % 6].0),
            _ => any_word(y),
        }
    }

    // One word more, unless the text is over, by two numbers: the first says which piece comes next, and the gap; the second says which word.
    fn step(&mut self) -> Option<Word> {
        let x = next(self.at);
        let y = next(x);
        self.at = y;
        self.gap = x / 8;
        if self.end <= self.word {
            let piece = self.next_piece(x)?;
            self.begin(piece, x);
        }
        if self.word == 8 {
            self.end = 9 + usize::from(COUNTS[y as usize % 6].1);
        }
        let word = self.next_word(x, y);
        self.word = self.word.saturating_add(1);
        Some(word)
    }
}

// A value, or any word.
fn any_word(y: u32) -> Word {
    if y % 4 == 0 {
        word_of(y / 4)
    } else {
        Word::Spelt(VALUES[y as usize / 4 % 3])
    }
}

// Puts the text of a recipe, but for a cut.
pub fn put_text(text: &mut Text, recipe: Recipe) {
    let mut walk = Walk {
        at: recipe.seed,
        mode: recipe.mode,
        goal: recipe.mode.goal(recipe.seed),
        piece: Piece::Head,
        word: 0,
        end: 1,
        depth: 0,
        names: 0,
        gap: 0,
    };
    for k in 0..3000 {
        let Some(word) = recipe.extra(k).or_else(|| walk.step()) else {
            put(text, gap_of(walk.gap, true));
            return;
        };
        put(text, gap_of(walk.gap, k == 0));
        if let Some(word) = recipe.changed(k, word) {
            put_word(text, word);
        }
    }
}
