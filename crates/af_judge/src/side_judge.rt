//! Whether the calls of a client's proxy answer by the words that they saw, by what is kept of its side of a block.
ghost use Rattle.std.specs.Prelude.{◌≡◌, ◌≢◌, ◌↔◌, ℕ, ◌+◌, ◌^◌, ◌<◌, IsTrue, None, is_some};
ghost use Rattle.af_base.specs.declared.event.ClientCall.TheVariants as seen_call;
ghost use Rattle.af_model.specs.ClientCalls.{IsInvalid, filled_by};
ghost use Rattle.af_model.specs.Point.{wrapped};
ghost use Rattle.af_model.specs.Room.{outside};
ghost use Rattle.af_judge.specs.Judging.{AnswersBy, AreFew, IsFew, kept_called, side_kept};
ghost use Rattle.af_runs.specs.ClientTurns.{new_side};

use af_base::{ClientCall, INVALID};
use af_model::Shape;
use std::marker::Model;

/// A client's side of a block: the sizes, the position up to which it released, the front and rear that shut it, and how many flushes it asked for and words it released.
#[derive(Drop)]
pub struct SideJudge {
    shape: Shape,
    position: u64,
    shut: Option<(u32, u32)>,
    flushes: u32,
    words: u64,
}

impl Model for SideJudge {
    ghost use Rattle.af_judge.specs.Judging.{SideKept};

    ghost Value = { SideKept };

    ghost view = { λ s. record { shape = s.shape; kept = record { position = s.position; shut = s.shut }; flushes = s.flushes; words = s.words } };
}

impl SideJudge {
    /// A side of a block on which nothing was done.
    pub fn new(shape: Shape) -> SideJudge
        ensures kept { result ≡ side_kept (new_side shape) }
        ensures few { shape.base < 2 ^ 32 → IsFew 0 result }
    {
        SideJudge {
            shape,
            position: u64::from(shape.base),
            shut: None,
            flushes: 0,
            words: 0,
        }
    }

    /// How many flushes the client asked for.
    pub fn flushes(&self) -> u32
        ensures { result ≡ self.now.flushes }
    {
        self.flushes
    }

    /// How many words the client released.
    pub fn words(&self) -> u64
        ensures { result ≡ self.now.words }
    {
        self.words
    }

    // The frames that lie in the block, as the client sees it by this front.
    fn filled(&self, front: u32) -> u32
        ensures { result ≡ filled_by self.now.kept front }
    {
        let rear = (self.position % 0x1_0000_0000) as u32;
        rear.wrapping_sub(front)
    }

    /// The client's proxy is shut.
    pub fn is_shut(&self) -> bool
        ensures { result ≡ is_some self.now.kept.shut }
    {
        self.shut.is_some()
    }

    // The client's proxy isn't shut.
    fn is_open(&self) -> bool
        ensures { IsTrue result ↔ (self.now.kept.shut ≡ None) }
    {
        self.shut.is_none()
    }

    // Whether a write that was given so many frames puts so many.
    fn puts(&self, asked: u32, front: u32, count: u32) -> bool
        requires { self.now.shape.cells ≢ 0 }
        ensures { IsTrue result ↔ AnswersBy self.now asked (seen_call.Put front count) }
    {
        let filled = self.filled(front);
        if !self.is_open() || filled >= self.shape.frames || asked == 0 {
            return false;
        }
        let room = u64::from(self.shape.frames) - u64::from(filled);
        let cells = u64::from(self.shape.cells);
        let to_end = cells - self.position % cells;
        u64::from(count) == u64::from(asked).min(room.min(to_end))
    }

    // Whether a write finds the block full.
    fn is_full(&self, front: u32) -> bool
        ensures { IsTrue result ↔ AnswersBy self.now 0 (seen_call.Full front) }
    {
        self.is_open() && self.filled(front) == self.shape.frames
    }

    // Whether the flags seen say that the track is dead.
    fn is_dead(&self, flags: u32) -> bool
        ensures { IsTrue result ↔ AnswersBy self.now 0 (seen_call.Dead flags) }
    {
        self.is_open() && flags & INVALID != 0
    }

    // Whether front and rear are those that shut the proxy, or lie too far apart in this call.
    fn is_corrupt(&self, front: u32, rear: u32) -> bool
        ensures { IsTrue result ↔ AnswersBy self.now 0 (seen_call.Corrupt front rear) }
    {
        match self.shut {
            Some((f, r)) => f == front && r == rear,
            None => {
                u64::from(rear) == self.position % 0x1_0000_0000
                    && self.filled(front) > self.shape.frames
            }
        }
    }

    // Whether there is room for a command.
    fn has_room(&self, front: u32) -> bool
        ensures { IsTrue result ↔ AnswersBy self.now 0 (seen_call.Sent front 0 0) }
    {
        self.is_open() && u64::from(self.filled(front)) + 2 <= u64::from(self.shape.frames)
    }

    // Whether there is none.
    fn lacks_room(&self, front: u32) -> bool
        ensures { IsTrue result ↔ AnswersBy self.now 0 (seen_call.SendFull front) }
    {
        let filled = u64::from(self.filled(front));
        let frames = u64::from(self.shape.frames);
        self.is_open() && filled <= frames && frames < filled + 2
    }

    /// Whether a call answers by the words that it saw and by what is kept. `asked` is how many frames a write was given.
    pub fn answers(&self, asked: u32, call: ClientCall) -> bool
        requires { self.now.shape.cells ≢ 0 }
        ensures { IsTrue result ↔ AnswersBy self.now asked call }
    {
        match call {
            ClientCall::Put { front, count } => self.puts(asked, front, count),
            ClientCall::Full { front } => self.is_full(front),
            ClientCall::Dead { flags } | ClientCall::SendDead { flags } => self.is_dead(flags),
            ClientCall::Corrupt { front, rear } | ClientCall::SendCorrupt { front, rear } => {
                self.is_corrupt(front, rear)
            }
            ClientCall::Flush { count } => u64::from(count) == u64::from(self.flushes) + 1,
            ClientCall::Sent { front, .. } => self.has_room(front),
            ClientCall::SendFull { front } => self.lacks_room(front),
            ClientCall::Poke { word, .. } => u64::from(word) < 7 + u64::from(self.shape.cells),
            ClientCall::Cleared { .. } | ClientCall::Gain { .. } | ClientCall::Status { .. } => {
                true
            }
        }
    }

    // A front outside the room shuts the proxy.
    fn see_front(&mut self, front: u32)
        ensures { self.new ≡ record self.old { kept = record self.old.kept { shut = outside self.old.shape.frames front (wrapped self.old.kept.position) } } }
    {
        let rear = (self.position % 0x1_0000_0000) as u32;
        self.shut = if self.filled(front) > self.shape.frames {
            Some((front, rear))
        } else {
            None
        };
    }

    // So many frames are released.
    fn release(&mut self, count: u32)
        requires few { self.old.kept.position < 2 ^ 62 }
        ensures { self.new ≡ record self.old { kept = record self.old.kept { position = self.old.kept.position + count } } }
    {
        self.position += u64::from(count);
    }

    /// Notes a call that released so many words.
    pub fn note(&mut self, call: ClientCall, words: u32)
        requires few { AreFew self.old }
        ensures called { self.new ≡ kept_called call words self.old }
        ensures few { (n : ℕ) → IsFew n self.old → IsFew (n + 1) self.new }
    {
        self.words += u64::from(words);
        match call {
            ClientCall::Put { front, count } => {
                self.see_front(front);
                self.release(count);
            }
            ClientCall::Sent { front, .. } => {
                self.see_front(front);
                self.release(2);
            }
            ClientCall::Full { front } | ClientCall::SendFull { front } => self.see_front(front),
            ClientCall::Corrupt { front, .. } | ClientCall::SendCorrupt { front, .. } => {
                if self.is_open() {
                    self.see_front(front);
                }
            }
            ClientCall::Flush { .. } => self.flushes += 1,
            _ => {}
        }
    }
}
