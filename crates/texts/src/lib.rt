// Texts that a program prints, made of words and numbers in lent bytes, and the line of a refusal.
// A text is put in where the text so far ends, and the text so far then ends after it. Where the longest text of its kind has no room, nothing is put.
// Each text of several parts has a function of its own that asks for its own room first, as its clause names it; a closure in its place would have that clause to state again.
// The lines are put by hand, and not by `write!`: of that a clause tells the bytes only for a `String`, which is heap.
#![tactic(auto)]

ghost use Rattle.std.specs.Prelude.{◌≡◌, ◌++◌, ◌+◌, ◌≤◌, ltb, length, take};
ghost use Rattle.tasks.specs.Refusals.{number as numbered, tells};
ghost use Rattle.texts.specs.Text.{decimal};
ghost use Rattle.texts.specs.Puts.{Puts};
ghost use Rattle.texts.specs.Telling.{told_text, told_most, refusal_text, refusal_most};

use itoa::write_digits;
use tasks::Refusal;

// Lent bytes, and where the text so far ends in them.
#[derive(Drop)]
pub struct Text<'a> {
    pub bytes: &'a mut [u8],
    pub end: usize,
}

// The most digits that a number has.
pub const NUMBER_MOST: usize = 20;

// The most bytes that a refusal's number has with what the refusal tells.
pub const TOLD_MOST: usize = 47;

// The most bytes that a refusal's line has.
pub const REFUSAL_MOST: usize = 56;

impl Text<'_> {
    // Whether so many bytes from the end on go past the lent bytes.
    pub fn is_short(&self, room: usize) -> bool
        ensures { result ≡ ltb (length self.now.bytes.now) (self.now.end + room) }
    {
        self.bytes.len() < self.end || self.bytes.len() - self.end < room
    }

    // The text so far.
    pub fn said(&self) -> &[u8]
        ensures { result.now ≡ take self.now.end self.now.bytes.now }
    {
        &self.bytes[..self.end.min(self.bytes.len())]
    }

    // Puts some words.
    pub fn words(&mut self, words: &[u8])
        ensures { Puts (length words.now) words.now self.old self.new }
    {
        if self.is_short(words.len()) {
            return;
        }
        let end = self.end + words.len();
        self.bytes[self.end..end].copy_from_slice(words);
        self.end = end;
    }

    // Puts a number in decimal: at most 20 digits.
    pub fn number(&mut self, n: u64)
        ensures { Puts 20 (decimal n) self.old self.new }
    {
        if self.is_short(NUMBER_MOST) {
            return;
        }
        let mut digits = [0; NUMBER_MOST];
        let start = write_digits(n, &mut digits, NUMBER_MOST);
        self.words(&digits[start..]);
    }

    // Puts a refusal's line.
    pub fn refusal(&mut self, refusal: Refusal)
        ensures { Puts refusal_most (refusal_text refusal) self.old self.new }
    {
        if self.is_short(REFUSAL_MOST) {
            return;
        }
        self.words(b"refused ");
        self.told(refusal);
        self.words(b"\n");
    }

    // A refusal's number in document 01 and what it tells.
    #[tactic(auto, unfolding(crate::specs::Telling::told_text, crate::specs::Text::ascii))]
    fn told(&mut self, refusal: Refusal)
        ensures { Puts told_most (decimal (numbered refusal) ++ told_text (tells refusal)) self.old self.new }
    {
        if self.is_short(TOLD_MOST) {
            return;
        }
        match refusal {
            Refusal::CutShort(p) => self.telling(1, b" at ", p.0 as u64),
            Refusal::WrongTag(p) => self.telling(2, b" at ", p.0 as u64),
            Refusal::WrongLength(p) => self.telling(3, b" at ", p.0 as u64),
            Refusal::CoresAt(p) => self.telling(4, b" at ", p.0 as u64),
            Refusal::CoresGiven(n) => self.telling(4, b" given ", n as u64),
            Refusal::ValuesAt(p) => self.telling(5, b" at ", p.0 as u64),
            Refusal::ValuesOf(i) => self.telling(5, b" task ", i.0 as u64),
            Refusal::TasksAt(p) => self.telling(6, b" at ", p.0 as u64),
            Refusal::TasksGiven(n) => self.telling(6, b" given ", n as u64),
            Refusal::NotPlaced(i) => self.telling(7, b" task ", i.0 as u64),
            Refusal::NoPlanShape => self.number(8),
            Refusal::NotWellMade => self.number(9),
            Refusal::NotRun(i) => self.telling(10, b" task ", i.0 as u64),
            Refusal::TooSoon(i) => self.telling(11, b" task ", i.0 as u64),
            Refusal::StillActive(i) => self.telling(12, b" task ", i.0 as u64),
            Refusal::BufferShort(n) => self.telling(13, b" needs ", n as u64),
        }
    }

    // A refusal's number, and a number after some words.
    fn telling(&mut self, which: u64, words: &[u8], n: u64)
        requires { (length words.now ≤ 7) × (self.old.end + told_most ≤ length self.old.bytes.now) }
        ensures { Puts told_most (decimal which ++ (words.now ++ decimal n)) self.old self.new }
    {
        self.number(which);
        self.words(words);
        self.number(n);
    }
}
