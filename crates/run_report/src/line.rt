//! A line of a report, which is written from its end to its beginning.
ghost use Rattle.std.specs.Prelude.{◌≡◌, ◌+◌, ◌≤◌, ◌++◌, [], length};
ghost use Rattle.std.specs.Fmt.{decimal};

use itoa::write_digits;
use std::marker::Model;

/// The most bytes of a line.
pub const LINE_ROOM: usize = 128;

/// The end of a line, seen as its bytes: what is put into it stands before them. The digits of a
/// number are found from the last to the first, so each is written where it stays.
#[derive(Drop)]
pub struct Line {
    bytes: [u8; LINE_ROOM],
    start: usize,
}

impl Model for Line {
    ghost use Rattle.std.specs.Prelude.{◌≡◌, ◌≤◌, ℕ, List, length, drop};

    ghost Value = { List ℕ };

    ghost view = { λ l. drop l.start l.bytes };

    ghost invariant = { λ l. (l.start ≤ 128) × (length l.bytes ≡ 128) };
}

impl Line {
    /// A line with nothing in it.
    pub fn new() -> Line
        ensures { result ≡ [] }
    {
        Line {
            bytes: [0; LINE_ROOM],
            start: LINE_ROOM,
        }
    }

    /// Puts words in front.
    pub fn words(&mut self, words: &[u8])
        requires { length words.now + length self.old ≤ LINE_ROOM }
        ensures text { self.new ≡ words.now ++ self.old }
        ensures len { length self.new ≡ length words.now + length self.old }
    {
        let start = self.start - words.len();
        self.bytes[start..self.start].copy_from_slice(words);
        self.start = start;
    }

    /// Puts a number in front.
    fn number(&mut self, n: u64)
        requires { 20 + length self.old ≤ LINE_ROOM }
        ensures text { self.new ≡ decimal n ++ self.old }
        ensures short { length self.new ≤ 20 + length self.old }
    {
        self.start = write_digits(n, &mut self.bytes, self.start);
    }

    /// Puts words and a number in front.
    pub fn worded(&mut self, words: &[u8], n: u64)
        requires { length words.now + 20 + length self.old ≤ LINE_ROOM }
        ensures text { self.new ≡ words.now ++ decimal n ++ self.old }
        ensures short { length self.new ≤ length words.now + 20 + length self.old }
    {
        self.number(n);
        self.words(words);
    }

    /// The line.
    pub fn as_slice(&self) -> &[u8]
        ensures { result.now ≡ self.now }
    {
        &self.bytes[self.start..]
    }
}
