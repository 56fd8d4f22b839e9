//! What is counted of a run for its summary, as the run goes on.
ghost use Rattle.std.specs.Prelude.{◌≡◌, ℕ, ◌+◌, ◌<◌, ◌≤◌, ◌^◌, ◌&&◌, [], ◌∷◌, ◌++◌, IfOk, All, if◌then◌else◌, length, max, option_copied};
ghost use Rattle.af_base.specs.Log.{slots, count_seen};
ghost use Rattle.af_base.specs.Mix.{peak_of};
ghost use Rattle.af_base.specs.Turn.{turn_of};
ghost use Rattle.af_model.specs.Cycles.{is_mixed};
ghost use Rattle.af_script.specs.Bounds.{most_tracks};
ghost use Rattle.af_tally.specs.Steps.{most_note, most_steps};
ghost use Rattle.af_tally.specs.Summaries.{Shown, count_flushed, has_no_poke, is_poke, looks_by, nothing_shown, slot_looks, summary_of, turn_looks, with_calls, with_entry, with_turn, with_written};
ghost use Rattle.af_tally.specs.Tallies.{IsTally, Keeps, Notes, discarded_by, mixed_by, most_looks, queued_by};

use crate::costs::{Costs, no_costs};
use crate::summary::Summary;
use af_base::{
    ClientCall, Cycle, CycleEntry, FastState, Frame, Memory, SLOTS, Seen, Steps, TurnEntry,
};
use af_model::carries_item;
use std::alloc::Global;
use std::marker::Model;
use std::sync::ledger::Ledger;

/// What is counted of one track: the frames that were taken and those that were discarded, and whether no poke was performed on its blocks.
#[derive(Clone, Copy, Debug, PartialEq, Eq)]
pub struct TrackTally {
    pub taken: u64,
    pub dropped: u64,
    pub lawful: bool,
}

// How many frames a look discarded.
fn count_flushed(seen: Seen) -> u32
    ensures { result ≡ count_flushed seen }
{
    match seen {
        Seen::Flushed { dropped } => dropped,
        _ => 0,
    }
}

impl TrackTally {
    // The tally of a track after one more look.
    fn with_look(self, seen: Seen) -> TrackTally
        requires taken { self.taken < 2 ^ 63 }
        requires dropped { self.dropped < 2 ^ 63 }
        ensures { result ≡ record { taken = self.taken + count_seen seen; dropped = self.dropped + count_flushed seen; lawful = self.lawful } }
    {
        TrackTally {
            taken: self.taken + u64::from(seen.count()),
            dropped: self.dropped + u64::from(count_flushed(seen)),
            lawful: self.lawful,
        }
    }

    // The tally of a track after calls of its client.
    fn with_calls(self, calls: &[ClientCall]) -> TrackTally
        ensures { result ≡ record self { lawful = self.lawful && has_no_poke calls.now } }
    {
        TrackTally {
            lawful: self.lawful && has_no_poke(calls),
            ..self
        }
    }

    // How many frames count as mixed.
    fn mixed(self) -> u64
        ensures { result ≡ mixed_by self }
    {
        if self.lawful { self.taken } else { 0 }
    }

    // How many frames count as dropped.
    fn discarded(self) -> u64
        ensures { result ≡ discarded_by self }
    {
        if self.lawful { self.dropped } else { 0 }
    }

    // How many of the frames released count as queued.
    fn queued(self, released: u64) -> u64
        requires taken { self.taken < 2 ^ 63 }
        requires dropped { self.dropped < 2 ^ 63 }
        ensures { result ≡ queued_by self released }
    {
        if self.lawful {
            released.saturating_sub(self.taken + self.dropped)
        } else {
            0
        }
    }
}

// Whether a call is a poke.
fn is_poke(call: ClientCall) -> bool
    ensures { result ≡ is_poke call }
{
    matches!(call, ClientCall::Poke { .. })
}

// Whether none of the calls is a poke.
fn has_no_poke(calls: &[ClientCall]) -> bool
    ensures { result ≡ has_no_poke calls.now }
{
    calls.iter().all(|call| !is_poke(*call))
}

// The greatest magnitude of a sample.
fn peak_of(frames: &[Frame]) -> u32
    ensures { result ≡ peak_of frames.now }
{
    let mut peak = 0;
    for frame in frames {
        peak = peak
            .max(u32::from(frame.left.unsigned_abs()))
            .max(u32::from(frame.right.unsigned_abs()));
    }
    peak
}

/// The tally of a run so far. Nothing but `new` takes memory.
#[derive(Drop)]
pub struct Tally {
    tracks: Vec<TrackTally>,
    cycles: u64,
    looks: u64,
    peak: u32,
    steps: Costs,
}

impl Model for Tally {
    ghost use Rattle.af_tally.specs.Tallies.{Tallied, IsSmall};

    ghost Value = { Tallied };

    ghost view = { λ t. record { tracks = t.tracks.items; cycles = t.cycles; looks = t.looks; peak = t.peak; steps = t.steps.items } };

    ghost invariant = { λ t. IsSmall t.tracks.items t.looks };
}

impl Tally {
    /// The tally of a run of so many tracks before its first round. Memory is its only refusal.
    pub fn new(alloc: Global, tracks: usize) -> Result<Tally, Memory>
        requires { tracks ≤ most_tracks }
        ensures tally { IfOk result (λ t. (frames : ℕ) → IsTally (nothing_shown frames tracks) t) }
        ensures empty { IfOk result (λ t. (length t.tracks ≡ tracks) × (t.looks ≡ 0) × (t.cycles ≡ 0)) }
    {
        let untouched = TrackTally {
            taken: 0,
            dropped: 0,
            lawful: true,
        };
        Ok(Tally {
            tracks: vec![in alloc; untouched; tracks]?,
            cycles: 0,
            looks: 0,
            peak: 0,
            steps: no_costs(),
        })
    }

    /// Notes calls of a track's client.
    pub fn note_calls(&mut self, track: usize, calls: &[ClientCall])
        requires track { track < length self.old.tracks }
        ensures tally { (run : Shown) → IsTally run self.old → IsTally (with_calls run track calls.now) self.new }
        ensures keeps { Keeps 0 0 self.old self.new }
    {
        self.tracks[track] = self.tracks[track].with_calls(calls);
    }

    /// Notes a turn of the normal mixer.
    pub fn note_turn(&mut self, turn: &TurnEntry)
        requires few { length turn.now.mixes.items ≤ slots }
        requires room { self.old.looks + slots ≤ most_looks }
        ensures tally { (run : Shown) → IsTally run self.old → IsTally (with_turn run (turn_of turn.now)) self.new }
        ensures keeps { Keeps slots 0 self.old self.new }
    {
        self.note_takes(turn);
    }

    // Notes what a turn took, take by take.
    fn note_takes(&mut self, turn: &TurnEntry)
        requires room { self.old.looks + length turn.now.mixes.items ≤ most_looks }
        ensures { Notes (length turn.now.mixes.items) (turn_looks (turn_of turn.now)) self.old self.new }
    {
        for take in turn.mixes.as_slice() {
            self.note_look(take.track, take.slot.seen);
        }
    }

    /// Notes an entry of the fast mixer with the state that it used, if it used one, and with the steps that its cycle took.
    pub fn note_entry<L: Ledger>(
        &mut self,
        entry: &CycleEntry,
        state: Option<&FastState>,
        steps: &Steps<L>,
    )
        requires room { self.old.looks + slots ≤ most_looks }
        requires cycles { self.old.cycles < 2 ^ 32 }
        ensures tally { (run : Shown) → steps.now ≤ most_steps run.frames (option_copied state.entry) → IsTally run self.old → IsTally (with_entry run (record { entry = entry.now; state = option_copied state.entry })) self.new }
        ensures keeps { Keeps slots 1 self.old self.new }
    {
        self.note_state(entry, state);
        self.note_cycle(entry.cycle);
        self.note_steps(steps);
    }

    // Notes the steps of a cycle more.
    fn note_steps<L: Ledger>(&mut self, steps: &Steps<L>)
        ensures { self.new ≡ record self.old { steps = self.old.steps ++ (steps.now, 0) ∷ [] } }
    {
        self.steps = self.steps.and(steps);
    }

    /// Notes the steps that the note of the last entry in a log took.
    pub fn note_noted<L: Ledger>(&mut self, steps: &Steps<L>)
        requires few { steps.now ≤ most_note }
        ensures tally { (run : Shown) → IsTally run self.old → IsTally run self.new }
        ensures keeps { Keeps 0 0 self.old self.new }
    {
        self.steps = self.steps.noted(steps);
    }

    /// The steps of all cycles that were noted, one after the other, each with those of its note.
    pub fn steps(&self) -> Costs
        ensures { result.items ≡ self.now.steps }
    {
        self.steps.again()
    }

    // Notes what an entry shows: nothing if it used no state.
    fn note_state(&mut self, entry: &CycleEntry, state: Option<&FastState>)
        requires room { self.old.looks + slots ≤ most_looks }
        ensures { Notes slots (looks_by entry.now (option_copied state.entry)) self.old self.new }
    {
        if let Some(state) = state {
            self.note_slots(entry, state);
        }
    }

    // Notes a cycle, which counts if it is a mix.
    fn note_cycle(&mut self, cycle: Cycle)
        requires { self.old.cycles < 2 ^ 32 }
        ensures { self.new ≡ record self.old { cycles = self.old.cycles + (if is_mixed cycle then 1 else 0) } }
    {
        if matches!(cycle, Cycle::Mixed) {
            self.cycles += 1;
        }
    }

    // Notes what an entry shows, slot by slot.
    fn note_slots(&mut self, entry: &CycleEntry, state: &FastState)
        requires room { self.old.looks + slots ≤ most_looks }
        ensures { Notes slots (looks_by entry.now (Some state.now)) self.old self.new }
    {
        for slot in 0..SLOTS {
            self.note_slot(entry, state, slot);
        }
    }

    // Notes what one slot shows, if it is of the mask.
    fn note_slot(&mut self, entry: &CycleEntry, state: &FastState, slot: usize)
        requires slot { slot < slots }
        requires room { self.old.looks < most_looks }
        ensures { Notes 1 (slot_looks entry.now state.now slot) self.old self.new }
    {
        if carries_item(state, slot) {
            self.note_look(state.slots[slot].track, entry.slots[slot].seen);
        }
    }

    // Notes a look at the stream block of a track. One of no track of the tally is left out.
    fn note_look(&mut self, track: u32, seen: Seen)
        requires { self.old.looks < most_looks }
        ensures { Notes 1 (record { track = track; seen = seen } ∷ []) self.old self.new }
    {
        self.looks += 1;
        let track = track as usize;
        if track < self.tracks.len() {
            self.tracks[track] = self.tracks[track].with_look(seen);
        }
    }

    /// Notes frames that were written.
    pub fn note_frames(&mut self, written: &[Frame])
        ensures tally { (run : Shown) → IsTally run self.old → IsTally (with_written run written.now) self.new }
        ensures keeps { Keeps 0 0 self.old self.new }
    {
        self.peak = self.peak.max(peak_of(written));
    }

    /// The summary of the run so far, whose clients released so many frames each.
    pub fn summary(&self, released: &[u64]) -> Summary
        requires count { length released.now ≡ length self.now.tracks }
        requires small { All (λ count. count < 2 ^ 58) released.now }
        ensures { (run : Shown) → IsTally run self.now → result ≡ summary_of run released.now }
    {
        let (mut mixed, mut dropped, mut queued) = (0, 0, 0);
        for track in 0..self.tracks.len() {
            let tally = self.tracks[track];
            mixed += tally.mixed();
            dropped += tally.discarded();
            queued += tally.queued(released[track]);
        }
        Summary {
            cycles: self.cycles,
            mixed,
            dropped,
            queued,
            peak: self.peak,
        }
    }
}
