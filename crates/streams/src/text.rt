// A line, made part by part.
ghost use Rattle.std.specs.Prelude.{◌≡◌, ℕ, ◌+◌, ◌≤◌, List, [], ◌++◌, length, take};
ghost use Rattle.streams.specs.declared.text.TheConstants.{MOST_BYTES};
ghost use Rattle.streams.specs.Text.{decimal};
ghost use Rattle.streams.specs.Line.{spaced, with_one, with_two};

use std::marker::Model;

// The longest line has three numbers of 20 digits, a word of 7 letters, 3 spaces and its end: 71 bytes, so that 80 are enough.
const MOST_BYTES: usize = 80;

// A line of the program: the first bytes of an array. There is no heap, so no Vec. Not Display: its law speaks of what is written
// to a String, and a Line is the bytes that `write_all` is lent.
#[derive(Drop)]
pub struct Line {
    bytes: [u8; MOST_BYTES],
    len: usize,
}

impl Model for Line {
    ghost Value = { List ℕ };

    ghost view = { λ l. take l.len l.bytes };

    ghost invariant = { λ l. l.len ≤ MOST_BYTES };
}

impl Line {
    // A line with nothing in it.
    pub(crate) fn new() -> Self
        ensures { result ≡ [] }
    {
        Line {
            bytes: [0; MOST_BYTES],
            len: 0,
        }
    }

    // Its bytes.
    pub fn bytes(&self) -> &[u8]
        ensures { result.now ≡ self.now }
    {
        &self.bytes[..self.len]
    }

    // The line with a text behind it.
    pub(crate) fn text(mut self, text: &[u8]) -> Self
        requires { length self + length text.now ≤ MOST_BYTES }
        ensures { result ≡ self ++ text.now }
    {
        let at = self.len;
        let end = at + text.len();
        self.bytes[at..end].copy_from_slice(text);
        self.len = end;
        self
    }

    // With a number, in decimal.
    pub(crate) fn number(self, n: u64) -> Self
        requires { length self + 20 ≤ MOST_BYTES }
        ensures { result ≡ self ++ decimal n }
    {
        let mut digits = [0u8; 20];
        let k = io::decimal(n, &mut digits);
        self.text(&digits[..k])
    }

    // With a space and a number; a `usize` has no `From` into a `u64`.
    fn spaced(self, n: usize) -> Self
        requires { length self + 21 ≤ MOST_BYTES }
        ensures { result ≡ self ++ spaced n }
    {
        self.text(b" ").number(n as u64)
    }

    // With a word and a number, to its end.
    pub(crate) fn with_one(self, word: &[u8], a: usize) -> Self
        requires { length self + length word.now + 22 ≤ MOST_BYTES }
        ensures { result ≡ self ++ with_one word.now a }
    {
        self.text(word).spaced(a).text(b"\n")
    }

    // With a word and two numbers, to its end.
    pub(crate) fn with_two(self, word: &[u8], a: usize, b: usize) -> Self
        requires { length self + length word.now + 43 ≤ MOST_BYTES }
        ensures { result ≡ self ++ with_two word.now a b }
    {
        self.text(word).spaced(a).spaced(b).text(b"\n")
    }
}
