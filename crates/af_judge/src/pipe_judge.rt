//! Whether what the two ends of the pipe did stands in some legal order, and whether the frames taken are those put.
ghost use Rattle.std.specs.Prelude.{◌≡◌, ◌≢◌, ◌↔◌, ℕ, ◌+◌, ◌<◌, ◌≤◌, ◌^◌, ◌++◌, [], IsTrue, IfOk, OnOk, List, length, map, take};
ghost use Rattle.af_base.specs.Sample.{packed_word};
ghost use Rattle.af_merges.specs.Merges.{HasLegalOrder};
ghost use Rattle.af_model.specs.PipeHistory.{releases_of};
ghost use Rattle.af_model.specs.Point.{wrapped};
ghost use Rattle.af_judge.specs.PipeKept.{HasPipeOrder, front_by_room, new_pipe, pipe_begins, saw_front, with_look, with_meeting, with_put};

use crate::frame_words::append;
use af_base::{ClientEvent, Frame, HandEvent, Memory, Seen, ServerEvent};
use af_merges::Merge;
use af_model::TrackPoint;
use std::alloc::Global;
use std::marker::Model;

/// The most events of an end.
const MOST_EVENTS: usize = 1 << 30;

/// The pipe: the events of its ends up to their last meeting and since then, and the words of the frames put and taken.
#[derive(Drop)]
pub struct PipeJudge {
    merge: Merge,
    size: u32,
    cells: u32,
    puts: Vec<ClientEvent>,
    takes: Vec<ServerEvent>,
    met_puts: usize,
    met_takes: usize,
    put: Vec<u32>,
    taken: Vec<u32>,
    compared: usize,
}

impl Model for PipeJudge {
    ghost use Rattle.std.specs.Prelude.{◌≡◌, ◌≢◌, ℕ, ◌<◌, ◌≤◌, ◌^◌, ◌++◌, [], length, take};
    ghost use Rattle.af_judge.specs.Meetings.{AreMeetings};
    ghost use Rattle.af_judge.specs.PipeKept.{PipeKept, pipe_begins};

    ghost Value = { PipeKept };

    ghost view = { λ p. record { size = p.size; cells = p.cells; puts = p.merge.client ++ p.puts.items; put = p.put.items; takes = p.merge.server ++ p.takes.items; taken = p.taken.items } };

    ghost invariant = { λ p. (p.merge.from ≡ pipe_begins) × AreMeetings 0 (length p.merge.client) p.merge.hand × (length p.merge.hand ≤ length p.merge.client) × (p.met_puts ≡ length p.merge.client) × (p.met_takes ≡ length p.merge.server) × (p.met_puts ≤ 2 ^ 30) × (p.met_takes ≤ 2 ^ 30) × (p.cells ≢ 0) × (p.compared ≤ length p.taken.items) × (p.compared ≤ length p.put.items) × (take p.compared p.taken.items ≡ take p.compared p.put.items) };
}

// Before any event.
fn start() -> TrackPoint
    ensures { result ≡ pipe_begins }
{
    TrackPoint {
        released: 0,
        consumed: 0,
        flushes: 0,
        flush_seen: 0,
        rear_seen: 0,
        gains: 0x1000_1000,
        flags: 0,
        status: 0,
        underruns: 0,
        flush_at: 0,
        drop_to: 0,
        wrap: 0,
    }
}

// The words from a place on are the same in both lists, of which the first is no longer than the second.
fn begins(words: &[u32], whole: &[u32], from: usize) -> bool
    requires from { from ≤ length words.now }
    requires same { take from words.now ≡ take from whole.now }
    ensures { IsTrue result ↔ (words.now ≡ take (length words.now) whole.now) }
{
    if words.len() > whole.len() {
        return false;
    }
    for at in from..words.len() {
        if words[at] != whole[at] {
            return false;
        }
    }
    true
}

// The word of a count.
fn wrapped(count: usize) -> u32
    ensures { result ≡ wrapped count }
{
    (count % 0x1_0000_0000) as u32
}

impl PipeJudge {
    /// A pipe of so many frames in so many cells, at which nothing was done.
    pub fn new(alloc: Global, size: u32, cells: u32) -> PipeJudge
        requires { cells ≢ 0 }
        ensures { result ≡ new_pipe size cells }
    {
        PipeJudge {
            merge: Merge::new(alloc, &start()),
            size,
            cells,
            puts: Vec::new(alloc),
            takes: Vec::new(alloc),
            met_puts: 0,
            met_takes: 0,
            put: Vec::new(alloc),
            taken: Vec::new(alloc),
            compared: 0,
        }
    }

    /// How many frames were taken.
    pub fn taken(&self) -> usize
        ensures { result ≡ length self.now.taken }
    {
        self.taken.len()
    }

    /// The end that puts saw this room.
    pub fn room(&mut self, room: u32) -> Result<(), Memory>
        ensures { OnOk result (self.new ≡ saw_front (front_by_room self.old.size (length self.old.put) room) self.old) }
    {
        let used = self.size.saturating_sub(room);
        let front = wrapped(self.put.len()).wrapping_sub(used);
        self.puts.push(ClientEvent::SawFront { front })?;
        Ok(())
    }

    // The releases of so many frames: none for none, and two if the index reaches the number of cells in between.
    fn release(&mut self, count: u32) -> Result<(), Memory>
        ensures { OnOk result (self.new ≡ record self.old { puts = self.old.puts ++ releases_of self.old.cells (length self.old.put) count }) }
    {
        let cells = u64::from(self.cells);
        let left = (cells - self.put.len() as u64 % cells) as u32;
        if count == 0 {
            return Ok(());
        }
        if count <= left {
            self.puts.push(ClientEvent::Release { count })?;
            return Ok(());
        }
        self.puts.push(ClientEvent::Release { count: left })?;
        self.puts.push(ClientEvent::Release {
            count: count - left,
        })?;
        Ok(())
    }

    /// These frames were put.
    pub fn put(&mut self, frames: &[Frame]) -> Result<(), Memory>
        requires { length frames.now < 2 ^ 32 }
        ensures { OnOk result (self.new ≡ with_put frames.now self.old) }
    {
        self.release(frames.len() as u32)?;
        append(&mut self.put, frames)
    }

    /// A look of the end that takes: it saw this rear and the front of all frames taken, and took these frames, as many as the look showed.
    pub fn looked(&mut self, rear: u32, seen: Seen, frames: &[Frame]) -> Result<(), Memory>
        ensures { OnOk result (self.new ≡ with_look rear seen frames.now self.old) }
    {
        let front = wrapped(self.taken.len());
        self.takes.push(ServerEvent::SawRear { rear })?;
        self.takes.push(ServerEvent::SawFront { front })?;
        if let Seen::Frames { count } = seen {
            self.takes.push(ServerEvent::Take { count })?;
        }
        append(&mut self.taken, frames)
    }

    // Whether the frames taken begin those put. What was compared before is not compared again.
    fn has_begun(&mut self) -> bool
        ensures same { self.new ≡ self.old }
        ensures begun { IsTrue result ↔ (self.old.taken ≡ take (length self.old.taken) self.old.put) }
    {
        let same = begins(&self.taken, &self.put, self.compared);
        if same {
            self.compared = self.taken.len();
        }
        same
    }

    // Whether some order of what the ends did is legal, once each learns how much the other one did. A hand that only meets the end that puts forbids nothing, and lets the search forget what was before.
    fn has_order(&mut self) -> Result<bool, Memory>
        ensures right { IfOk result (λ yes. IsTrue yes ↔ HasLegalOrder pipe_begins self.new.puts self.new.takes []) }
        ensures met { OnOk result (self.new ≡ with_meeting self.old) }
    {
        let puts = self.met_puts + self.puts.len();
        let takes = self.met_takes + self.takes.len();
        if puts >= MOST_EVENTS || takes >= MOST_EVENTS {
            return Err(Memory);
        }
        self.puts.push(ClientEvent::Learn {
            count: takes as u64,
        })?;
        self.takes.push(ServerEvent::Learn { count: puts as u64 })?;
        let met = [HandEvent::Met {
            client: puts as u64 + 1,
        }];
        let legal = self.merge.extend(&self.puts, &self.takes, &met)?;
        self.met_puts = puts + 1;
        self.met_takes = takes + 1;
        self.puts.clear();
        self.takes.clear();
        Ok(legal)
    }

    /// The ends meet. Answers whether some order of what they did is legal, by which the frames taken are those put.
    pub fn meet(&mut self) -> Result<bool, Memory>
        ensures right { IfOk result (λ yes. IsTrue yes ↔ HasPipeOrder self.new) }
        ensures met { OnOk result (self.new ≡ with_meeting self.old) }
    {
        let legal = self.has_order()?;
        let begun = self.has_begun();
        Ok(legal && begun)
    }
}
