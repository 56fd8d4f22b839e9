//! What one turn of the normal mixer saw and did.
ghost use Rattle.std.specs.Prelude.{◌≡◌, ◌<◌, [], ◌∷◌, ◌++◌, length, IfOk, MatchOption, slice_index_or, slice_set};

use crate::seen::Seen;
use crate::{Frame, Memory, Push, SlotEntry};
use std::alloc::Global;
use std::marker::Model;
use std::mem;

/// A list with room that was reserved. Contracts see its items, and for how many there is room in all: they compare two lists by their items.
#[derive(Drop)]
pub struct Items<T> {
    items: Vec<T>,
}

impl<T> Model for Items<T> {
    ghost use Rattle.std.specs.Vec.{vec_capacity};
    ghost use Rattle.af_base.specs.Roomy.{Roomy};

    ghost Value = { Roomy T };

    ghost view = { λ l. record { items = l.items.items; room = vec_capacity l.items } };
}

impl<T: Drop> Items<T> {
    /// An empty list with room for so many items. Memory is its only refusal.
    pub fn with_room(alloc: Global, room: usize) -> Result<Items<T>, Memory>
        ensures { IfOk result (λ l. l ≡ record { items = []; room = room }) }
    {
        let items = Vec::with_capacity(alloc, room)?;
        Ok(Items { items })
    }

    /// The items, in order.
    pub fn as_slice(&self) -> &[T]
        ensures { result.now ≡ self.now.items }
    {
        self.items.as_slice()
    }

    /// Adds an item, for which there is room.
    pub fn push(&mut self, item: T)
        requires room { length self.old.items < self.old.room }
        ensures { self.new ≡ record self.old { items = self.old.items ++ item ∷ [] } }
    {
        self.items.push_reserved(item);
    }

    /// Takes the last item; None exactly if there is none.
    pub fn pop(&mut self) -> Option<T>
        ensures { MatchOption result ((self.old.items ≡ []) × (self.new ≡ self.old)) (λ item. self.old ≡ record self.new { items = self.new.items ++ item ∷ [] }) }
    {
        self.items.pop()
    }

    /// Drops all items. The room stays.
    pub fn clear(&mut self)
        ensures { self.new ≡ record self.old { items = [] } }
    {
        self.items.clear();
    }

    /// Puts an item into the place of another, which comes back.
    pub fn replace(&mut self, index: usize, item: T) -> T
        requires index { index < length self.old.items }
        ensures items { self.new ≡ record self.old { items = slice_set self.old.items index item } }
        ensures other { result ≡ slice_index_or self.old.items index result }
    {
        mem::replace(&mut self.items[index], item)
    }
}

/// The tracks of a turn, in order.
pub type TrackTurns = Items<TrackTurn>;

/// The looks at a command block, in order.
pub type CommandLooks = Items<CommandLook>;

/// The tracks that a turn mixed, in order.
pub type NormalTakes = Items<NormalTake>;

/// Frames that were taken, in order.
pub type FrameList = Items<Frame>;

/// One look at a command block. Code and argument are the two words that a look of two frames took, else 0.
#[derive(Clone, Copy, Debug, PartialEq, Eq)]
pub struct CommandLook {
    pub flush: u32,
    pub rear: u32,
    pub seen: Seen,
    pub code: u32,
    pub argument: u32,
}

/// What a turn saw and did of one track. Contracts compare by `track_seen`, which leaves the list's room out.
#[derive(Drop)]
pub struct TrackTurn {
    pub looks: CommandLooks,
    /// The status word stored, if one was.
    pub status: Option<u32>,
    /// Whether DISABLED was set.
    pub disabled: bool,
}

/// What a turn took of one track for its buffer. `first` of the slot is 0. Contracts compare by `take_seen`, which leaves the list's room out.
#[derive(Drop)]
pub struct NormalTake {
    pub track: u32,
    pub slot: SlotEntry,
    pub frames: FrameList,
}

/// A turn of the normal mixer. Contracts compare two turns by `turn_of`, which leaves the lists' room out.
///
/// Of a turn that has ended the numbers are 0, `ack` is true, `push` is Clean, and both lists are empty.
#[derive(Drop)]
pub struct TurnEntry {
    /// Whether the turn answered that the mixer has ended.
    pub ended: bool,
    /// The frames that the pipe had room for.
    pub room: u32,
    /// Whether the last push was seen acknowledged.
    pub ack: bool,
    /// The cycle of the report that was loaded.
    pub cycle: u64,
    pub tracks: TrackTurns,
    pub push: Push,
    pub mixes: NormalTakes,
}

impl TurnEntry {
    ghost use Rattle.std.specs.Prelude.{◌≡◌, IfOk, [], true};
    ghost use Rattle.af_base.specs.Turn.{turn_of, ended_turn};

    /// The entry of a turn that has ended, with room for so many tracks and mixes. Memory is its only refusal.
    pub fn with_room(alloc: Global, tracks: usize, mixes: usize) -> Result<TurnEntry, Memory>
        ensures turn { IfOk result (λ e. turn_of e ≡ ended_turn) }
        ensures room { IfOk result (λ e. (e.tracks.room ≡ tracks) × (e.mixes.room ≡ mixes)) }
    {
        Ok(TurnEntry {
            ended: true,
            room: 0,
            ack: true,
            cycle: 0,
            tracks: TrackTurns::with_room(alloc, tracks)?,
            push: Push::Clean,
            mixes: NormalTakes::with_room(alloc, mixes)?,
        })
    }

    /// Becomes the entry of a turn that has ended. The room stays.
    pub fn end(&mut self)
        ensures turn { turn_of self.new ≡ ended_turn }
        ensures room { (self.new.tracks.room ≡ self.old.tracks.room) × (self.new.mixes.room ≡ self.old.mixes.room) }
    {
        self.ended = true;
        self.room = 0;
        self.ack = true;
        self.cycle = 0;
        self.tracks.clear();
        self.push = Push::Clean;
        self.mixes.clear();
    }
}
