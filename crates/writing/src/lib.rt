// Bytes, words and numbers written into a lent buffer, one behind the other. No `Display`: a formatter takes text, and a clause can't say where
// in the buffer it went.
#![tactic(auto)]

ghost use Rattle.std.specs.Prelude.{◌≡◌, [], ◌∷◌, ◌<◌, replicate};
ghost use Rattle.writing.specs.Written.{HasRoom, Puts};
ghost use Rattle.writing.specs.Decimal.{decimal, number_line};

use itoa::Buffer;

// A buffer, and the place behind what is written in it.
#[derive(Drop)]
pub struct Writer<'a> {
    pub bytes: &'a mut [u8],
    pub at: usize,
}

impl<'a> Writer<'a> {
    // From the buffer's start on.
    pub fn new(bytes: &'a mut [u8]) -> Writer<'a>
        ensures same_buffer { result.bytes.ghost_name ≡ bytes.entry.ghost_name }
        ensures bytes { result.bytes.now ≡ bytes.old }
        ensures start { result.at ≡ 0 }
    {
        Writer { bytes, at: 0 }
    }

    pub fn put(&mut self, b: u8)
        requires { HasRoom self.old (b ∷ []) }
        ensures { Puts self.old (b ∷ []) self.new }
    {
        self.bytes[self.at] = b;
        self.at += 1;
    }

    pub fn write(&mut self, word: &[u8])
        requires { HasRoom self.old word.now }
        ensures { Puts self.old word.now self.new }
    {
        let end = self.at + word.len();
        self.bytes[self.at..end].copy_from_slice(word);
        self.at = end;
    }

    pub fn zeros(&mut self, count: usize)
        requires { HasRoom self.old (replicate count 0) }
        ensures { Puts self.old (replicate count 0) self.new }
    {
        let end = self.at + count;
        self.bytes[self.at..end].fill(0);
        self.at = end;
    }

    // A number below 1000 in decimal.
    pub fn number(&mut self, k: usize)
        requires { (k < 1000) × HasRoom self.old (decimal k) }
        ensures { Puts self.old (decimal k) self.new }
    {
        let mut digits = Buffer::new();
        self.write(digits.format(k).as_bytes());
    }

    // A word, a number and the line's end.
    pub fn number_line(&mut self, word: &[u8], k: usize)
        requires { (k < 1000) × HasRoom self.old (number_line word.now k) }
        ensures { Puts self.old (number_line word.now k) self.new }
    {
        self.write(word);
        self.number(k);
        self.put(b'\n');
    }
}
