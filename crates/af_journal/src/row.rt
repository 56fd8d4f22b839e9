//! Lines of a mark and numbers, which are written from their end to their beginning, as the digits of a number come.
ghost use Rattle.std.specs.Prelude.{◌≡◌, ◌+◌, ◌*◌, ◌<◌, ◌≤◌, ◌++◌, ◌∷◌, [], codes, decimal, flat_map, length};
ghost use Rattle.af_journal.specs.Lines.{looked, marked, seen_text, with_lf};

use af_base::Seen;
use itoa::write_digits;
use std::marker::Model;

// The most bytes of such a line.
const ROOM: usize = 192;

/// The end of a line, with its LF. Contracts see its bytes.
#[derive(Drop)]
pub(crate) struct Row {
    bytes: [u8; ROOM],
    start: usize,
}

impl Model for Row {
    ghost use Rattle.std.specs.Prelude.{ℕ, ◌≤◌, List, drop};

    ghost Value = { List ℕ };

    ghost view = { λ r. drop r.start r.bytes };

    ghost invariant = { λ r. r.start ≤ 192 };
}

impl Row {
    /// The LF alone.
    pub(crate) fn new() -> Row
        ensures { result ≡ 10 ∷ [] }
    {
        Row {
            bytes: [b'\n'; ROOM],
            start: ROOM - 1,
        }
    }

    /// The bytes.
    pub(crate) fn bytes(&self) -> &[u8]
        ensures { result.now ≡ self.now }
    {
        &self.bytes[self.start..]
    }

    // One byte in front.
    fn put(&mut self, byte: u8)
        requires { length self.old < 192 }
        ensures { self.new ≡ byte ∷ self.old }
    {
        self.start -= 1;
        self.bytes[self.start] = byte;
    }

    // The digits of a number in front.
    fn put_digits(&mut self, number: u64)
        requires { length self.old + 20 ≤ 192 }
        ensures digits { self.new ≡ decimal number ++ self.old }
        ensures size { length self.new ≤ length self.old + 20 }
    {
        self.start = write_digits(number, &mut self.bytes, self.start);
    }

    // A space and a number in front.
    fn put_number(&mut self, number: u64)
        requires { length self.old + 21 ≤ 192 }
        ensures number { self.new ≡ 32 ∷ decimal number ++ self.old }
        ensures size { length self.new ≤ length self.old + 21 }
    {
        self.put_digits(number);
        self.put(b' ');
    }

    // Words in front, each after a space.
    fn put_words(&mut self, words: &[u32])
        requires { length self.old + 21 * length words.now ≤ 192 }
        ensures words { self.new ≡ flat_map (λ n. 32 ∷ decimal n) words.now ++ self.old }
        ensures size { length self.new ≤ length self.old + 21 * length words.now }
    {
        for at in 0..words.len() {
            self.put_number(u64::from(words[words.len() - 1 - at]));
        }
    }

    // A space and what a look showed in front.
    fn put_seen(&mut self, seen: Seen)
        requires { length self.old + 44 ≤ 192 }
        ensures seen { self.new ≡ 32 ∷ seen_text seen ++ self.old }
        ensures size { length self.new ≤ length self.old + 44 }
    {
        match seen {
            Seen::Absent => {}
            Seen::Frames { count } => {
                self.put_number(u64::from(count));
                self.put(b'f');
            }
            Seen::Empty => self.put(b'e'),
            Seen::Flushed { dropped } => {
                self.put_number(u64::from(dropped));
                self.put(b'l');
            }
            Seen::Shut { front, rear } => {
                self.put_number(u64::from(rear));
                self.put_number(u64::from(front));
                self.put(b'x');
            }
        }
        self.put(b' ');
    }

    /// The line of a mark and words, of which this is the LF.
    pub(crate) fn put_marked(&mut self, mark: u8, words: &[u32])
        requires line { self.old ≡ 10 ∷ [] }
        requires few { length words.now ≤ 6 }
        ensures { self.new ≡ with_lf (marked (mark ∷ []) words.now) }
    {
        self.put_words(words);
        self.put(mark);
    }

    /// The line of a mark, words and what a look showed, of which this is the LF.
    pub(crate) fn put_looked(&mut self, mark: u8, words: &[u32], seen: Seen)
        requires line { self.old ≡ 10 ∷ [] }
        requires few { length words.now ≤ 6 }
        ensures { self.new ≡ with_lf (looked (mark ∷ []) words.now seen) }
    {
        self.put_seen(seen);
        self.put_words(words);
        self.put(mark);
    }

    /// The line of an entry by its state and the number of its kind, of which this is the LF.
    pub(crate) fn put_entry(&mut self, state: u64, kind: u32)
        requires line { self.old ≡ 10 ∷ [] }
        ensures { self.new ≡ with_lf (marked (codes "y") (state ∷ kind ∷ [])) }
    {
        self.put_number(u64::from(kind));
        self.put_number(state);
        self.put(b'y');
    }
}
