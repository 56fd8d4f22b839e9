//! A turn of the normal mixer over plain values: the definition as a program, slow and without blocks, queue or pipe.
ghost use Rattle.std.specs.Prelude.{◌≡◌, ℕ, ◌+◌, ◌*◌, ◌-◌, ◌<◌, ◌≤◌, ◌^◌, if◌then◌else◌, length, map, max, IfOk};
ghost use Rattle.std.specs.List.{fold};
ghost use Rattle.af_base.specs.Command.{code_of};
ghost use Rattle.af_base.specs.Log.{slots};
ghost use Rattle.af_base.specs.Turn.{turn_of, take_seen};
ghost use Rattle.af_model.specs.Draft.{attached, detached, draft_commanded as with_command};
ghost use Rattle.af_model.specs.Reports.{report_at};
ghost use Rattle.af_model.specs.StateQueue.{slot_of};
ghost use Rattle.af_life.specs.Kept.{Setup, Learnt, asked, new_normal, new_track, track_at, track_in, slot_number};
ghost use Rattle.af_life.specs.Obeys.{slot_for};
ghost use Rattle.af_life.specs.Serves.{served, served_to};
ghost use Rattle.af_life.specs.Edits.{welcomed, after_ack, let_go, lend, edited, edited_to, commanded_by, after_push};
ghost use Rattle.af_life.specs.Plays.{after_take, after_takes};
ghost use Rattle.af_life.specs.Turn.{after_tracks, after_edits, turn_after};
ghost use Rattle.af_life.specs.Small.{AreUpTo, AreSmall, IsEdited, IsSmall, turn_weight, most_tracks};
ghost use Rattle.af_life.specs.Plain.{Plain, learnt_of};

use crate::edits::{free_slot, next_command};
use crate::heard::NO_COUNTS;
use crate::kept::{Heard, Holder, Setting, TrackKept};
use crate::{Known, fresh};
use af_base::{
    Command, CommandLook, FastState, FastTrack, Memory, NormalTake, Push, Report, SlotReport,
    TrackTurn, TurnEntry,
};
use af_model::first_state;
use std::alloc::Global;
use std::marker::Model;

/// A normal mixer between two turns, as plain values.
#[derive(Drop)]
pub struct PlainMixer {
    frames: u32,
    normal: u32,
    settings: Vec<Setting>,
    tracks: Vec<TrackKept>,
    draft: FastState,
    dirty: bool,
    pushed: u64,
    last: FastState,
    ended: bool,
    turns: u32,
}

impl Model for PlainMixer {
    ghost use Rattle.af_life.specs.Plain.{Plain};

    ghost Value = { Plain };

    ghost view = { λ m. record { setup = record { frames = m.frames; normal = m.normal; settings = m.settings.items }; kept = record { tracks = m.tracks.items; draft = m.draft; dirty = m.dirty; pushed = m.pushed; last = m.last; ended = m.ended }; turns = m.turns } };
}

// What is known of a proxy that has done nothing.
pub(crate) const NOTHING_HEARD: Heard = Heard {
    known: Known {
        consumed: 0,
        fulls: 0,
        partials: 0,
        empties: 0,
        shut: false,
    },
    flush_seen: 0,
};

/// A track before its first turn: its proxy is home, it has no slot, and no command was settled.
pub fn new_track() -> TrackKept
    ensures { result ≡ new_track }
{
    TrackKept {
        life: fresh(),
        holder: Holder::Home,
        slot: None,
        generation: 0,
        at_attach: NOTHING_HEARD,
        reported: NO_COUNTS,
        own: NO_COUNTS,
        awaits: None,
        settled: 0,
        status: 0,
    }
}

// A slot of the state gets a track: its generation rises.
fn attach(draft: &mut FastState, slot: u32, setting: Setting, track: u32)
    requires slot { slot < slots }
    requires room { ((slot_of draft.old slot).generation < 2 ^ 62) × (draft.old.tracks_gen < 2 ^ 62) }
    ensures { draft.new ≡ attached slot setting.mono setting.scale track draft.old }
{
    let i = slot as usize;
    draft.slots[i] = FastTrack {
        generation: draft.slots[i].generation + 1,
        track,
        mono: setting.mono,
        scale: setting.scale,
    };
    draft.mask |= 1 << slot;
    draft.tracks_gen += 1;
}

// A slot leaves the state.
fn detach(draft: &mut FastState, slot: u32)
    requires slot { slot < slots }
    requires room { draft.old.tracks_gen < 2 ^ 62 }
    ensures { draft.new ≡ detached slot draft.old }
{
    draft.mask &= !(1 << slot);
    draft.tracks_gen += 1;
}

// The state with another command: a change to cold idle counts.
fn set_command(draft: &mut FastState, command: Command)
    requires room { draft.old.cold_gen < 2 ^ 62 }
    ensures { draft.new ≡ with_command command draft.old }
{
    let (before, after) = (draft.command.code(), command.code());
    let cold = Command::ColdIdle.code();
    if after == cold && before != cold {
        draft.cold_gen += 1;
    }
    draft.command = command;
}

// What the report says of the track's slot.
fn slot_reported(report: &Report, track: TrackKept) -> SlotReport
    requires slot { slot_number track < slots }
    ensures { result ≡ report_at report.now.slots (slot_number track) }
{
    report.slots[track.slot_number() as usize]
}

// The looks that a turn made at the commands of a track.
fn looks_at(entry: &TurnEntry, track: usize) -> &[CommandLook]
    ensures { result.now ≡ (track_in (turn_of entry.now) track).looks }
{
    match entry.tracks.as_slice().get(track) {
        Some(seen) => seen.looks.as_slice(),
        None => &[],
    }
}

// The most looks that a turn made at one track.
fn longest(turns: &[TrackTurn]) -> usize
    ensures { result ≡ fold (λ most seen. max most (length seen.looks.items)) 0 turns.now }
{
    let mut most = 0;
    for seen in turns {
        most = most.max(seen.looks.as_slice().len());
    }
    most
}

/// What a turn weighs: 1, and one more for each 64 looks that the longest track has beyond its first 64.
pub fn turn_weight(entry: &TurnEntry) -> usize
    ensures { result ≡ turn_weight (turn_of entry.now) }
{
    1 + longest(entry.tracks.as_slice()).saturating_sub(1) / 64
}

impl PlainMixer {
    /// A mixer before its first turn, of these tracks. Memory is its only refusal.
    pub fn new(
        alloc: Global,
        frames: u32,
        normal: u32,
        settings: Vec<Setting>,
    ) -> Result<PlainMixer, Memory>
        requires sizes { (frames ≤ 1024) × (normal ≤ 16) × (length settings.items ≤ most_tracks) }
        ensures new { let c : Setup = record { frames = frames; normal = normal; settings = settings.items } in IfOk result (λ m. m ≡ record { setup = c; kept = new_normal c; turns = 0 }) }
        ensures small { IfOk result (λ m. IsSmall m.turns m.setup m.kept) }
    {
        let tracks = vec![in alloc; new_track(); settings.len()]?;
        let first = first_state(frames);
        Ok(PlainMixer {
            frames,
            normal,
            settings,
            tracks,
            draft: first,
            dirty: false,
            pushed: 0,
            last: first,
            ended: false,
            turns: 0,
        })
    }

    /// The tracks, in order.
    pub fn tracks(&self) -> &[TrackKept]
        ensures { result.now ≡ self.now.kept.tracks }
    {
        self.tracks.as_slice()
    }

    /// The draft.
    pub fn draft(&self) -> &FastState
        ensures { result.now ≡ self.now.kept.draft }
    {
        &self.draft
    }

    /// Whether the draft is to be pushed.
    pub fn is_dirty(&self) -> bool
        ensures { result ≡ self.now.kept.dirty }
    {
        self.dirty
    }

    /// How many states were pushed.
    pub fn pushed(&self) -> u64
        ensures { result ≡ self.now.kept.pushed }
    {
        self.pushed
    }

    /// How much the turns that were made weigh together.
    pub fn turns(&self) -> u32
        ensures { result ≡ self.now.turns }
    {
        self.turns
    }

    /// Whether a turn answered that the mixer has ended.
    pub fn has_ended(&self) -> bool
        ensures { result ≡ self.now.kept.ended }
    {
        self.ended
    }

    // The frames of a normal buffer.
    fn asked(&self) -> u32
        requires sizes { (self.now.setup.frames ≤ 1024) × (self.now.setup.normal ≤ 16) }
        ensures { result ≡ asked self.now.setup }
    {
        self.normal * self.frames
    }

    // Proxies come home.
    fn welcome(&mut self)
        requires slots { (i : ℕ) → i < length self.old.kept.tracks → slot_number (track_at self.old.kept.tracks i) < slots }
        ensures { self.new ≡ record self.old { kept = record self.old.kept { tracks = map (welcomed self.old.kept.last) self.old.kept.tracks } } }
    {
        let PlainMixer { tracks, last, .. } = self;
        for track in tracks.iter_mut() {
            *track = track.welcomed(last);
        }
    }

    // The slot that an OPEN of a track gets.
    fn slot_for(&self, track: usize) -> Option<u32>
        requires track { track < length self.now.setup.settings }
        ensures { result ≡ slot_for self.now.setup self.now.kept.tracks track }
    {
        if !self.settings[track].fast {
            return None;
        }
        free_slot(&self.tracks)
    }

    // A track after its part of the turn.
    #[tactic(auto, unfolding(crate::specs::Serves::served))]
    fn served(&self, i: usize, report: &Report, own: &[Heard], looks: &[CommandLook]) -> TrackKept
        requires track { (i < length self.now.kept.tracks) × (i < length self.now.setup.settings) × (i < length own.now) }
        requires slot { slot_number (track_at self.now.kept.tracks i) < slots }
        requires room { (track_at self.now.kept.tracks i).settled + length looks.now < 2 ^ 62 - 1 }
        ensures { result ≡ served self.now.setup (learnt_of report.now own.now) looks.now self.now.kept.tracks i }
    {
        let track = self.tracks[i];
        if track.life.ended {
            return track;
        }
        let reported = slot_reported(report, track);
        let heard = track.heard(own[i], reported);
        let ready = track.noted(reported).settled_at(heard.flush_seen);
        ready.after_part(self.slot_for(i), heard, looks)
    }

    // A lent track is detached.
    #[tactic(auto, unfolding(crate::specs::Edits::let_go))]
    fn let_go(&mut self, i: usize)
        requires track { i < length self.old.kept.tracks }
        requires slot { slot_number (track_at self.old.kept.tracks i) < slots }
        requires room { self.old.kept.draft.tracks_gen < 2 ^ 62 }
        ensures { self.new ≡ record self.old { kept = let_go i self.old.kept } }
    {
        let track = self.tracks[i];
        detach(&mut self.draft, track.slot_number());
        self.tracks[i] = TrackKept {
            holder: Holder::Returning,
            ..track
        };
        self.dirty = true;
    }

    // A track that is home is attached.
    #[tactic(auto, unfolding(crate::specs::Edits::lend))]
    fn lend(&mut self, i: usize, own: Heard)
        requires track { (i < length self.old.kept.tracks) × (i < length self.old.setup.settings) × (i < 2 ^ 32) }
        requires slot { slot_number (track_at self.old.kept.tracks i) < slots }
        requires room { ((slot_of self.old.kept.draft (slot_number (track_at self.old.kept.tracks i))).generation < 2 ^ 62) × (self.old.kept.draft.tracks_gen < 2 ^ 62) }
        ensures { self.new ≡ record self.old { kept = lend self.old.setup i own self.old.kept } }
    {
        let track = self.tracks[i];
        attach(
            &mut self.draft,
            track.slot_number(),
            self.settings[i],
            i as u32,
        );
        self.tracks[i] = track.lent_by(&self.draft, own);
        self.dirty = true;
    }

    // The command follows from what the edits left.
    #[tactic(auto, unfolding(crate::specs::Edits::ordered))]
    fn order(&mut self, room: u32)
        requires sizes { (self.old.setup.frames ≤ 1024) × (self.old.setup.normal ≤ 16) }
        requires colds { self.old.kept.draft.cold_gen < 2 ^ 62 }
        ensures { self.new ≡ record self.old { kept = commanded_by self.old.setup room self.old.kept } }
    {
        let before = self.draft.command;
        let exits = before.code() == Command::Exit.code();
        let command = next_command(exits, &self.tracks, room, 4 * self.asked());
        if command.code() != before.code() {
            set_command(&mut self.draft, command);
            self.dirty = true;
        }
    }

    // The push answered.
    fn push(&mut self, push: Push)
        requires room { self.old.kept.pushed < 2 ^ 62 }
        ensures { self.new ≡ record self.old { kept = after_push push self.old.kept } }
    {
        if let Push::Pushed { .. } = push {
            self.dirty = false;
            self.pushed += 1;
            self.last = self.draft;
        }
    }

    // Each track has its part of the turn, one after the other.
    fn serve_all(&mut self, report: &Report, own: &[Heard], entry: &TurnEntry)
        requires small { IsSmall self.old.turns self.old.setup self.old.kept }
        requires turns { self.old.turns + turn_weight (turn_of entry.now) ≤ 131072 }
        requires own { length own.now ≡ length self.old.kept.tracks }
        ensures { self.new ≡ record self.old { kept = after_tracks self.old.setup (learnt_of report.now own.now) (turn_of entry.now) self.old.kept } }
    {
        for i in 0..self.tracks.len() {
            self.tracks[i] = self.served(i, report, own, looks_at(entry, i));
        }
    }

    // A track is detached or attached, if that is due.
    #[tactic(auto, unfolding(crate::specs::Edits::edited))]
    fn edit(&mut self, i: usize, own: Heard)
        requires track { (i < length self.old.kept.tracks) × (i < length self.old.setup.settings) × (i < 2 ^ 32) }
        requires slot { slot_number (track_at self.old.kept.tracks i) < slots }
        requires room { ((slot_of self.old.kept.draft (slot_number (track_at self.old.kept.tracks i))).generation < 2 ^ 62) × (self.old.kept.draft.tracks_gen < 2 ^ 62) }
        ensures { (k : Learnt) → k.own i ≡ own → self.new ≡ record self.old { kept = edited self.old.setup k i self.old.kept } }
    {
        let track = self.tracks[i];
        if track.must_leave() {
            self.let_go(i);
        } else if track.must_enter() {
            self.lend(i, own);
        }
    }

    // Each track is edited, one after the other.
    fn edit_all(&mut self, report: &Report, own: &[Heard])
        requires sizes { (length self.old.kept.tracks ≡ length self.old.setup.settings) × (length own.now ≡ length self.old.kept.tracks) × (length own.now ≤ most_tracks) }
        requires small { (n : ℕ) × (m : ℕ) × IsEdited n m (most_tracks * self.old.turns) self.old.turns self.old.kept }
        requires turns { self.old.turns < 131072 }
        ensures { self.new ≡ record self.old { kept = edited_to self.old.setup (learnt_of report.now own.now) self.old.kept (length self.old.kept.tracks) } }
    {
        for i in 0..self.tracks.len() {
            self.edit(i, own[i]);
        }
    }

    // A look of a track that was mixed counts.
    fn count(&mut self, take: &NormalTake)
        requires sizes { (self.old.setup.frames ≤ 1024) × (self.old.setup.normal ≤ 16) }
        requires room { (i : ℕ) → AreUpTo (2 ^ 31 - 1) (track_at self.old.kept.tracks i).own }
        ensures { self.new ≡ record self.old { kept = record self.old.kept { tracks = after_take (asked self.old.setup) self.old.kept.tracks (take_seen take.now) } } }
    {
        let asked = self.asked();
        let i = take.track as usize;
        if i < self.tracks.len() {
            self.tracks[i].own = self.tracks[i].own.counted(asked, take.slot.seen);
        }
    }

    // The looks of all tracks that were mixed count.
    fn count_all(&mut self, takes: &[NormalTake])
        requires sizes { (self.old.setup.frames ≤ 1024) × (self.old.setup.normal ≤ 16) }
        requires few { length takes.now ≤ most_tracks }
        requires room { (n : ℕ) × AreSmall n (2 ^ 30) self.old.kept.tracks }
        ensures { self.new ≡ record self.old { kept = after_takes self.old.setup (map take_seen takes.now) self.old.kept } }
    {
        for take in takes {
            self.count(take);
        }
    }

    // The ack was seen, or not.
    fn see_ack(&mut self, ack: bool)
        requires slots { (i : ℕ) → slot_number (track_at self.old.kept.tracks i) < slots }
        ensures { self.new ≡ record self.old { kept = after_ack ack self.old.kept } }
    {
        if ack {
            self.welcome();
        }
    }

    // The turn went on: the tracks are served, the draft is edited and pushed, and the takes count.
    fn go_on(&mut self, report: &Report, own: &[Heard], entry: &TurnEntry)
        requires small { IsSmall self.old.turns self.old.setup self.old.kept }
        requires takes { length (turn_of entry.now).mixes ≤ most_tracks }
        requires turns { self.old.turns + turn_weight (turn_of entry.now) ≤ 131072 }
        requires own { length own.now ≡ length self.old.kept.tracks }
        ensures { let k : Learnt = learnt_of report.now own.now in let e = turn_of entry.now in self.new ≡ record self.old { kept = after_takes self.old.setup e.mixes (after_push e.push (after_edits self.old.setup k e self.old.kept)) } }
    {
        self.see_ack(entry.ack);
        self.serve_all(report, own, entry);
        self.edit_all(report, own);
        self.order(entry.room);
        self.push(entry.push);
        self.count_all(entry.mixes.as_slice());
    }

    // What the turn leaves.
    #[tactic(auto, unfolding(crate::specs::Turn::turn_after))]
    fn advance(&mut self, report: &Report, own: &[Heard], entry: &TurnEntry)
        requires small { IsSmall self.old.turns self.old.setup self.old.kept }
        requires takes { length (turn_of entry.now).mixes ≤ most_tracks }
        requires turns { self.old.turns + turn_weight (turn_of entry.now) ≤ 131072 }
        requires own { length own.now ≡ length self.old.kept.tracks }
        ensures { self.new ≡ record self.old { kept = turn_after self.old.setup (learnt_of report.now own.now) self.old.kept (turn_of entry.now) } }
    {
        if entry.ended {
            self.ended = true;
            return;
        }
        self.go_on(report, own, entry);
    }

    /// What a turn leaves, by its entry, the report that it loaded, and what each stream proxy knows that is home. It never asks whether the turn was legal. A turn may hold any number of looks: it counts by its weight.
    pub fn turn(&mut self, report: &Report, own: &[Heard], entry: &TurnEntry)
        requires small { IsSmall self.old.turns self.old.setup self.old.kept }
        requires takes { length (turn_of entry.now).mixes ≤ most_tracks }
        requires turns { self.old.turns + turn_weight (turn_of entry.now) ≤ 131072 }
        requires own { length own.now ≡ length self.old.kept.tracks }
        ensures turn { self.new ≡ record self.old { kept = turn_after self.old.setup (learnt_of report.now own.now) self.old.kept (turn_of entry.now); turns = self.old.turns + turn_weight (turn_of entry.now) } }
        ensures small { IsSmall self.new.turns self.new.setup self.new.kept }
    {
        let weight = turn_weight(entry);
        self.advance(report, own, entry);
        self.turns += weight as u32;
    }
}
