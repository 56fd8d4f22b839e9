//! The log of a fast mixer: what each cycle read, saw and took.
ghost use Rattle.std.specs.Prelude.{◌≡◌, ◌+◌, ◌*◌, ◌<◌, ◌≤◌, ◌^◌, [], ◌∷◌, ◌++◌, length, IfOk, MatchOption};
ghost use Rattle.std.specs.Vec.{vec_capacity};
ghost use Rattle.af_base.specs.Log.{slots, entry_at};

use crate::seen::Seen;
use crate::state::SLOTS;
use crate::{Frame, Memory};
use std::alloc::Global;
use std::marker::Model;

/// What one slot read and saw in one cycle.
#[derive(Clone, Copy, Debug, PartialEq, Eq)]
pub struct SlotEntry {
    /// The gain word: left in the low half, right in the high half, each in 4.12.
    pub gains: u32,
    /// The flush count seen.
    pub flush: u32,
    /// The rear seen.
    pub rear: u32,
    pub seen: Seen,
    /// The place of the taken frames in the log's frames.
    pub first: usize,
}

/// What a cycle was.
#[derive(Clone, Copy, Debug, PartialEq, Eq)]
pub enum Cycle {
    /// A buffer was mixed.
    Mixed,
    /// There was nothing to do.
    Idle,
    /// A change to cold idle was performed.
    Cold,
    /// The mixer has ended.
    Exit,
    /// The log has all of its entries, so many.
    Spent { cycles: usize },
}

impl Cycle {
    ghost use Rattle.std.specs.Prelude.{◌≡◌};
    ghost use Rattle.af_base.specs.Log.{kind_of};

    /// The number of a kind of cycle, by which journals and notes name it: 0 mixed, 1 idle, 2 cold, 3 exit, 4 spent.
    pub fn kind(self) -> u32
        ensures { result ≡ kind_of self }
    {
        match self {
            Cycle::Mixed => 0,
            Cycle::Idle => 1,
            Cycle::Cold => 2,
            Cycle::Exit => 3,
            Cycle::Spent { .. } => 4,
        }
    }
}

/// What a log keeps of one cycle.
#[derive(Clone, Copy, Debug, PartialEq, Eq)]
pub struct CycleEntry {
    /// The number of the state used, 0 if none was pushed.
    pub state: u64,
    pub cycle: Cycle,
    pub slots: [SlotEntry; SLOTS],
    /// The 4.12 scale of each slot, at most 0x1000.
    pub scales: [u16; SLOTS],
    /// Bit i is set if slot i was mixed as mono.
    pub mono: u32,
}

/// The entries of some cycles, with the frames that they took (AOSP has a FastMixerDumpState, of counts alone).
///
/// Contracts see the entries, the frames, and for how many of each there is room in all. They compare two logs by `log_of`, which leaves the room out.
#[derive(Drop)]
pub struct FastLog {
    entries: Vec<CycleEntry>,
    frames: Vec<Frame>,
}

impl Model for FastLog {
    ghost use Rattle.std.specs.Vec.{vec_capacity};
    ghost use Rattle.af_base.specs.Log.{Logged};

    ghost Value = { Logged };

    ghost view = { λ l. record { entries = l.entries.items; frames = l.frames.items; room = vec_capacity l.entries; frame_room = vec_capacity l.frames } };
}

impl FastLog {
    /// An empty log with room for `cycles` entries, at most 100,000, and the frames of all slots at `frames` frames a cycle. Memory is its only refusal.
    pub fn with_room(alloc: Global, cycles: usize, frames: usize) -> Result<FastLog, Memory>
        requires cycles { cycles ≤ 100000 }
        requires frames { cycles * frames ≤ 2 ^ 21 }
        ensures { IfOk result (λ l. l ≡ record { entries = []; frames = []; room = cycles; frame_room = slots * (cycles * frames) }) }
    {
        let entries = Vec::with_capacity(alloc, cycles)?;
        let frames = Vec::with_capacity(alloc, SLOTS * (cycles * frames))?;
        Ok(FastLog { entries, frames })
    }

    /// A log of these entries, whose slots name the place of their frames among these frames. It takes no memory, and has room for what these lists have room for.
    pub fn of(entries: Vec<CycleEntry>, frames: Vec<Frame>) -> FastLog
        ensures { result ≡ record { entries = entries.items; frames = frames.items; room = vec_capacity entries; frame_room = vec_capacity frames } }
    {
        FastLog { entries, frames }
    }

    /// How many entries there are.
    pub fn len(&self) -> usize
        ensures { result ≡ length self.now.entries }
    {
        self.entries.len()
    }

    /// The entry of this number, from 0; None exactly if there are no more than `index` entries.
    pub fn entry(&self, index: usize) -> Option<&CycleEntry>
        ensures { MatchOption result (length self.now.entries ≤ index) (λ e. (index < length self.now.entries) × (e.now ≡ entry_at self.now.entries index)) }
    {
        self.entries.get(index)
    }

    /// The frames taken, cycle by cycle and slot by slot.
    pub fn frames(&self) -> &[Frame]
        ensures { result.now ≡ self.now.frames }
    {
        self.frames.as_slice()
    }

    /// Adds an entry, for which there is room.
    pub fn push(&mut self, entry: CycleEntry)
        requires room { length self.old.entries < self.old.room }
        ensures { self.new ≡ record self.old { entries = self.old.entries ++ entry ∷ [] } }
    {
        self.entries.push_reserved(entry);
    }

    /// Forgets all entries and frames. The room stays, so nothing is taken or freed.
    pub fn clear(&mut self)
        ensures { self.new ≡ record self.old { entries = []; frames = [] } }
    {
        self.entries.clear();
        self.frames.clear();
    }

    /// Adds frames that were taken, for which there is room.
    pub fn push_frames(&mut self, frames: &[Frame])
        requires room { length self.old.frames + length frames.now ≤ self.old.frame_room }
        ensures frames { self.new ≡ record self.old { frames = self.old.frames ++ frames.now; frame_room = self.new.frame_room } }
        ensures room { self.old.frame_room ≤ self.new.frame_room }
    {
        if self.frames.extend_from_slice(frames).is_err() {
            unreachable!()
        }
    }
}
