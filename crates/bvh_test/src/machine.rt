// What is due for a text, word by word: a table says what must come next.
use arrayvec::ArrayVec;
use samples::put;

// A label: a name with zeros behind it.
type Label = [u8; 16];

// The parents of joints, each a byte as a sheet has it.
pub type Parents = ArrayVec<u8, 128>;

// What must come next: a keyword, a name or a count; or the hierarchy has ended, or the text is refused.
#[derive(Clone, Copy, PartialEq, Eq)]
enum Due {
    Hierarchy,
    FirstRoot,
    RootOrMotion,
    Brace,
    Offset,
    Channels,
    Inside,
    Site,
    SiteBrace,
    SiteOffset,
    SiteClose,
    Name,
    Count,
    Done,
    Refused(u8),
}

// A count above this one is as good as this one, since no text has so many words.
const MOST: u32 = 20000;

// What must come next, and how many words of any kind come before it; the joints whose blocks are open, the outermost first; and the joints
// that were met, with their parents. Labels and parents are lists of their own, since a sheet has all labels before all parents, each list whole.
#[derive(Drop)]
pub struct Machine {
    due: Due,
    left: u32,
    open: ArrayVec<u8, 32>,
    labels: ArrayVec<Label, 128>,
    pub parents: Parents,
}

fn is_gap(byte: u8) -> bool {
    matches!(byte, b'\t' | b'\n' | b'\r' | b' ')
}

// What a word counts. By digits, since `parse` takes a plus too, and has an error for a number that no u32 holds, which is a count here.
fn count_of(word: &[u8]) -> Option<u32> {
    let mut count = 0u32;
    for byte in word {
        let digit = char::from(*byte).to_digit(10)?;
        count = (10 * count.min(MOST) + digit).min(MOST);
    }
    Some(count)
}

// The label of a word that can be a name: 1 to 16 bytes that are visible.
fn label_of(word: &[u8]) -> Option<Label> {
    let mut label = [0; 16];
    if 16 < word.len() || !word.iter().all(|byte| byte.is_ascii_graphic()) {
        return None;
    }
    label[..word.len()].copy_from_slice(word);
    Some(label)
}

impl Machine {
    fn new() -> Machine {
        Machine {
            due: Due::Hierarchy,
            left: 0,
            open: ArrayVec::new(),
            labels: ArrayVec::new(),
            parents: ArrayVec::new(),
        }
    }

    // Where the machine is behind a text.
    pub fn behind(text: &[u8]) -> Machine {
        let mut machine = Machine::new();
        for word in text.split(|byte| is_gap(*byte)) {
            if !word.is_empty() {
                machine.turn(word);
            }
        }
        machine
    }

    // One word.
    fn turn(&mut self, word: &[u8]) {
        if 0 < self.left {
            self.left -= 1;
            return;
        }
        match self.due {
            Due::Name => self.name(word),
            Due::Count => match count_of(word) {
                Some(count) => {
                    self.left = count;
                    self.due = Due::Inside;
                }
                None => self.due = Due::Refused(19),
            },
            Due::Done | Due::Refused(_) => {}
            _ => self.keyword(word),
        }
    }

    // A word where a keyword must stand: a name only where a block may nest; three words behind OFFSET; a closed block is gone.
    fn keyword(&mut self, word: &[u8]) {
        self.due = match (self.due, word) {
            (Due::Hierarchy, b"HIERARCHY") => Due::FirstRoot,
            (Due::FirstRoot | Due::RootOrMotion, b"ROOT") | (Due::Inside, b"JOINT") => {
                if self.open.is_full() {
                    Due::Refused(19)
                } else {
                    Due::Name
                }
            }
            (Due::RootOrMotion, b"MOTION") => Due::Done,
            (Due::Brace, b"{") => Due::Offset,
            (Due::Offset, b"OFFSET") => {
                self.left = 3;
                Due::Channels
            }
            (Due::Channels, b"CHANNELS") => Due::Count,
            (Due::Inside, b"End") => Due::Site,
            (Due::Inside, b"}") => self.closed(),
            (Due::Site, b"Site") => Due::SiteBrace,
            (Due::SiteBrace, b"{") => Due::SiteOffset,
            (Due::SiteOffset, b"OFFSET") => {
                self.left = 3;
                Due::SiteClose
            }
            (Due::SiteClose, b"}") => Due::Inside,
            _ => Due::Refused(19),
        };
    }

    // The last open block is closed.
    fn closed(&mut self) -> Due {
        let _ = self.open.pop();
        if self.open.is_empty() {
            Due::RootOrMotion
        } else {
            Due::Inside
        }
    }

    // A name is met: its parent is the last joint whose block is open, or 255, the byte that a sheet has for a root.
    fn name(&mut self, word: &[u8]) {
        let joints = self.labels.len();
        if 128 <= joints {
            self.due = Due::Refused(2);
            return;
        }
        let label = label_of(word).filter(|label| !self.labels.contains(label));
        let Some(label) = label else {
            self.due = Due::Refused(20);
            return;
        };
        let _ = self.labels.try_push(label);
        let parent = self.open.last().copied().unwrap_or(255);
        let _ = self.parents.try_push(parent);
        // By `as`, since a number below 128 fits; try_from would have an error that cannot be.
        let _ = self.open.try_push(joints as u8);
        self.due = Due::Brace;
    }

    // What a text ends with: the number of its refusal.
    pub fn refused(&self) -> Option<u8> {
        match self.due {
            Due::RootOrMotion | Due::Done => None,
            Due::Refused(number) => Some(number),
            _ => Some(19),
        }
    }

    // The sheet: labels, no entries and parents.
    pub fn put_sheet(&self, sheet: &mut ArrayVec<u8, 2180>) {
        let n = self.labels.len() as u8;
        put(sheet, &[n]);
        put(sheet, self.labels.as_flattened());
        put(sheet, &[0, 0, n]);
        put(sheet, &self.parents);
    }
}
