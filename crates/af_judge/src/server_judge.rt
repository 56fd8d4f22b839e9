//! What is kept of a block's server: what its looks noticed, how much it consumed, and the words that shut it.
ghost use Rattle.std.specs.Prelude.{◌≡◌, ℕ, ◌↔◌, ◌+◌, IsTrue, is_some};
ghost use Rattle.af_base.specs.declared.event.ServerEvent.TheVariants.{SawFront};
ghost use Rattle.af_life.specs.Heard.{known_by};
ghost use Rattle.af_model.specs.Cycles.{IsSeen, Listed, LooksBy};
ghost use Rattle.af_model.specs.ServerCalls.{ServerKept, server_begins, server_keeps};
ghost use Rattle.af_runs.specs.Fronts.{front_of};
ghost use Rattle.af_judge.specs.Servers.{AnswersAs, IsConsumed, IsServerOf, front_judged, server_at};

use crate::front::{front_by_answer, leaves_open};
use crate::look::{ahead, flushes_by, is_noticed, is_outside, look_at};
use af_base::{Seen, ServerEvent, SlotEntry};
use af_life::{Heard, Known};
use af_model::Shape;

// The most that a report tells of frames consumed.
const MOST_CONSUMED: u64 = 0x7fff_ffff_ffff_ffff;

/// A server of a block: the sizes, the flush word, rear and front seen last, whether that flush word was new, that of the last flush noticed, how many frames were taken and dropped (at most 2^64 - 1), the word of the position up to which they were, and the front and rear that shut it.
#[derive(Clone, Copy, Drop)]
pub struct ServerJudge {
    shape: Shape,
    flush: u32,
    is_new: bool,
    noticed: u32,
    rear: u32,
    front: u32,
    consumed: u64,
    own: u32,
    shut: Option<(u32, u32)>,
}

// A look shows something, and if it shows frames at least one.
fn is_seen(seen: Seen) -> bool
    ensures { IsTrue result ↔ IsSeen seen }
{
    match seen {
        Seen::Absent => false,
        Seen::Frames { count } => count != 0,
        _ => true,
    }
}

impl ServerJudge {
    /// A server that has done nothing.
    pub fn new(shape: Shape) -> ServerJudge
        ensures { result ≡ server_at shape (server_begins shape) }
    {
        ServerJudge {
            shape,
            flush: 0,
            is_new: false,
            noticed: 0,
            rear: shape.base,
            front: shape.base,
            consumed: 0,
            own: shape.base,
            shut: None,
        }
    }

    /// The sizes of the block.
    pub fn shape(&self) -> Shape
        ensures { result ≡ self.now.shape }
    {
        self.shape
    }

    /// How many frames the server took and dropped, at most 2^64 - 1.
    pub fn consumed(&self) -> u64
        ensures { result ≡ self.now.consumed }
    {
        self.consumed
    }

    /// The server is shut.
    pub fn is_shut(&self) -> bool
        ensures { result ≡ is_some self.now.shut }
    {
        self.shut.is_some()
    }

    /// What a report or a mixer knows of the server, without looks.
    pub fn known(&self) -> Heard
        ensures { (s : Listed) → IsServerOf s self.now → result ≡ known_by s }
    {
        Heard {
            known: Known {
                consumed: self.consumed.min(MOST_CONSUMED),
                fulls: 0,
                partials: 0,
                empties: 0,
                shut: self.shut.is_some(),
            },
            flush_seen: flushes_by(self.shape.wrap, self.noticed),
        }
    }

    /// The front that a journal tells of a look.
    pub fn front_told(&self, asked: u32, slot: &SlotEntry) -> u32
        ensures { (s : Listed) → IsServerOf s self.now → result ≡ front_of asked s slot.now }
    {
        if leaves_open(self.shape, asked, slot.seen)
            && !is_outside(self.shape, self.own, slot.rear)
        {
            return self.own;
        }
        front_by_answer(self.shape, slot)
    }

    // The front by which a look is judged: on a block without a poke the server's own, if the answer leaves it open.
    fn front_judged(&self, lawful: bool, asked: u32, slot: &SlotEntry) -> u32
        ensures { (s : Listed) → IsServerOf s self.now → result ≡ front_judged lawful asked s slot.now }
    {
        if lawful && leaves_open(self.shape, asked, slot.seen) {
            return self.own;
        }
        front_by_answer(self.shape, slot)
    }

    // The look answers by this front.
    fn looks_by(&self, asked: u32, slot: &SlotEntry, front: u32) -> bool
        ensures { (s : Listed) → IsServerOf s self.now → IsTrue result ↔ AnswersAs asked s slot.now front }
    {
        match self.shut {
            None => {
                slot.seen == look_at(self.shape, self.flush, asked, slot.flush, slot.rear, front)
            }
            Some((front, rear)) => {
                slot.seen == Seen::Shut { front, rear }
                    && slot.flush == self.flush
                    && slot.rear == rear
            }
        }
    }

    /// Whether a look answers by the words seen, by the server's own front if a lawful block's answer leaves it open, and else by some front.
    pub fn answers(&self, lawful: bool, asked: u32, slot: &SlotEntry) -> bool
        ensures { (s : Listed) → IsServerOf s self.now → IsTrue result ↔ LooksBy asked s slot.now (front_judged lawful asked s slot.now) }
    {
        let front = self.front_judged(lawful, asked, slot);
        is_seen(slot.seen) && self.looks_by(asked, slot, front)
    }

    // So many frames are consumed.
    fn consume(&mut self, count: u32)
        ensures same { self.new ≡ record self.old { consumed = self.new.consumed; own = self.new.own } }
        ensures counts { (c : ℕ) → IsConsumed c self.old → IsConsumed (c + count) self.new }
    {
        self.consumed = self.consumed.saturating_add(u64::from(count));
        self.own = self.own.wrapping_add(count);
    }

    // A front is seen: one outside the room shuts the server, unless a new flush is noticed.
    fn see_front(&mut self, front: u32)
        ensures { (k : ServerKept) → self.old ≡ server_at self.old.shape k → self.new ≡ server_at self.old.shape (server_keeps self.old.shape k (SawFront front)) }
    {
        self.front = front;
        self.shut = None;
        if is_noticed(self.shape, self.is_new, self.rear, front) {
            self.noticed = self.flush;
        } else if is_outside(self.shape, front, self.rear) {
            self.shut = Some((front, self.rear));
        }
    }

    /// Notes what the server did.
    #[inline(always)]
    pub fn note(&mut self, event: ServerEvent)
        ensures { (k : ServerKept) → self.old ≡ server_at self.old.shape k → self.new ≡ server_at self.old.shape (server_keeps self.old.shape k event) }
    {
        match event {
            ServerEvent::SawFlush { flush } => {
                self.is_new = flush != self.flush;
                self.flush = flush;
            }
            ServerEvent::SawRear { rear } => self.rear = rear,
            ServerEvent::SawFront { front } => self.see_front(front),
            ServerEvent::Drop { to } => self.consume(ahead(self.front, to)),
            ServerEvent::Take { count } => self.consume(count),
            _ => {}
        }
    }
}
