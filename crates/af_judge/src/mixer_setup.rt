//! What a mixer is made of, and how a turn of such a mixer serves its tracks.
ghost use Rattle.std.specs.Prelude.{◌≡◌, ◌↔◌, ℕ, ◌+◌, ◌*◌, ◌-◌, ◌<◌, ◌≤◌, ◌^◌, IfOk, IsTrue, length, map};
ghost use Rattle.af_base.specs.Log.{slots};
ghost use Rattle.af_base.specs.Part.{take_of as part_of};
ghost use Rattle.af_base.specs.Turn.{take_seen, track_seen};
ghost use Rattle.af_life.specs.Heard.{heard, ready};
ghost use Rattle.af_life.specs.Kept.{Learnt, asked, pipe_size, seen_at, slot_number, track_at};
ghost use Rattle.af_life.specs.Obeys.{slot_for};
ghost use Rattle.af_life.specs.Plain.{learnt_of};
ghost use Rattle.af_life.specs.Plays.{put_by, take_of, tracks_due};
ghost use Rattle.af_life.specs.Serves.{LegalTrack, served, served_to};

use crate::buffer_mix::mix_of;
use crate::due_looks::{Ready, is_passed};
use crate::takes_due::are_mixed_here;
use af_base::{CommandLook, Frame, Memory, NormalTake, Part, Report, TrackTurn};
use af_life::{Heard, Setting, TrackKept, free_slot};
use std::alloc::Global;
use std::marker::Model;

/// The frames of a fast cycle, the cycles of a normal buffer, and what each track is.
#[derive(Drop)]
pub struct MixerSetup {
    pub frames: u32,
    pub normal: u32,
    pub settings: Vec<Setting>,
}

impl Model for MixerSetup {
    ghost use Rattle.af_life.specs.Kept.{Setup};

    ghost Value = { Setup };

    ghost view = { λ s. record { frames = s.frames; normal = s.normal; settings = s.settings.items } };
}

/// The track of a number.
pub fn track_at(tracks: &[TrackKept], track: usize) -> TrackKept
    requires { track < length tracks.now }
    ensures { result ≡ track_at tracks.now track }
{
    tracks[track]
}

impl MixerSetup {
    /// The frames of a normal buffer.
    pub fn asked(&self) -> u32
        requires sizes { (self.now.frames ≤ 1024) × (self.now.normal ≤ 16) }
        ensures { result ≡ asked self.now }
    {
        self.normal * self.frames
    }

    /// The frames that the pipe holds.
    pub fn pipe_size(&self) -> u32
        requires sizes { (self.now.frames ≤ 1024) × (self.now.normal ≤ 16) }
        ensures { result ≡ pipe_size self.now }
    {
        4 * self.asked()
    }

    // The slot that an OPEN of a track gets.
    fn slot_for(&self, tracks: &[TrackKept], track: usize) -> Option<u32>
        requires track { track < length self.now.settings }
        ensures { result ≡ slot_for self.now tracks.now track }
    {
        if !self.settings[track].fast {
            return None;
        }
        free_slot(tracks)
    }

    // A track when its commands are looked at.
    fn ready(&self, report: &Report, own: &[Heard], tracks: &[TrackKept], i: usize) -> Ready
        requires track { (i < length tracks.now) × (i < length self.now.settings) × (i < length own.now) }
        requires slot { slot_number (track_at tracks.now i) < slots }
        requires room { (track_at tracks.now i).settled < 2 ^ 31 }
        ensures given { result.given ≡ slot_for self.now tracks.now i }
        ensures heard { result.heard ≡ heard (learnt_of report.now own.now) i (track_at tracks.now i) }
        ensures settled { result.track.settled ≤ (track_at tracks.now i).settled + 1 }
        ensures track { result.track ≡ ready (learnt_of report.now own.now) i (track_at tracks.now i) }
    {
        let track = track_at(tracks, i);
        let reported = report.slots[track.slot_number() as usize];
        let heard = track.heard(own[i], reported);
        let track = track.noted(reported).settled_at(heard.flush_seen);
        let given = self.slot_for(tracks, i);
        Ready {
            given,
            heard,
            track,
        }
    }

    // Whether a turn did for a track what is due, by what it did for those before; for one that had ended, nothing.
    fn is_due(
        &self,
        report: &Report,
        own: &[Heard],
        tracks: &[TrackKept],
        i: usize,
        seen: &TrackTurn,
    ) -> bool
        requires track { (i < length tracks.now) × (i < length self.now.settings) × (i < length own.now) }
        requires slot { slot_number (track_at tracks.now i) < slots }
        requires room { (track_at tracks.now i).settled + length seen.now.looks.items < 2 ^ 24 - 1 }
        ensures { IsTrue result ↔ LegalTrack self.now (learnt_of report.now own.now) (track_seen seen.now) tracks.now i }
    {
        if track_at(tracks, i).life.ended {
            return is_passed(seen);
        }
        self.ready(report, own, tracks, i).is_served(seen)
    }

    // The track after its part of the turn; one that had ended is passed over.
    #[tactic(auto, unfolding(af_life::specs::Serves::served))]
    fn served(
        &self,
        report: &Report,
        own: &[Heard],
        tracks: &[TrackKept],
        i: usize,
        looks: &[CommandLook],
    ) -> TrackKept
        requires track { (i < length tracks.now) × (i < length self.now.settings) × (i < length own.now) }
        requires slot { slot_number (track_at tracks.now i) < slots }
        requires room { (track_at tracks.now i).settled + length looks.now < 2 ^ 24 - 1 }
        ensures { result ≡ served self.now (learnt_of report.now own.now) looks.now tracks.now i }
    {
        let track = track_at(tracks, i);
        if track.life.ended {
            return track;
        }
        self.ready(report, own, tracks, i).served(looks)
    }

    /// Whether each track was served by what those before it left. `tracks` are those that the turn found, once what came home is there.
    pub fn are_served(
        &self,
        report: &Report,
        own: &[Heard],
        tracks: Vec<TrackKept>,
        turns: &[TrackTurn],
    ) -> bool
        requires sizes { (length tracks.items ≡ length self.now.settings) × (length own.now ≡ length self.now.settings) × (length turns.now ≡ length self.now.settings) }
        requires slots { (i : ℕ) → slot_number (track_at tracks.items i) < slots }
        requires room { (i : ℕ) → (track_at tracks.items i).settled + length (seen_at (map track_seen turns.now) i).looks < 2 ^ 24 - 1 }
        ensures { IsTrue result ↔ ((i : ℕ) → i < length tracks.items → LegalTrack self.now (learnt_of report.now own.now) (seen_at (map track_seen turns.now) i) (served_to self.now (learnt_of report.now own.now) (map track_seen turns.now) tracks.items i) i) }
    {
        let mut tracks = tracks;
        for i in 0..tracks.len() {
            if !self.is_due(report, own, &tracks, i, &turns[i]) {
                return false;
            }
            tracks[i] = self.served(report, own, &tracks, i, turns[i].looks.as_slice());
        }
        true
    }

    /// What a turn hears of a track's stream.
    pub fn heard(&self, report: &Report, own: Heard, track: TrackKept) -> Heard
        requires slot { slot_number track < slots }
        ensures { (k : Learnt) (i : ℕ) → k.report ≡ report.now → k.own i ≡ own → result ≡ heard k i track }
    {
        track.heard(own, report.slots[track.slot_number() as usize])
    }

    /// Whether the takes are those of the tracks that are due: if the pipe has room for a buffer those that are mixed here, in order.
    pub fn are_due(&self, room: u32, takes: &[NormalTake], tracks: &[TrackKept]) -> bool
        requires sizes { (self.now.frames ≤ 1024) × (self.now.normal ≤ 16) }
        ensures { IsTrue result ↔ (map (λ take. take.track) (map take_seen takes.now) ≡ tracks_due self.now room tracks.now) }
    {
        if room < self.asked() {
            return takes.is_empty();
        }
        are_mixed_here(takes, tracks)
    }

    // What a take gives to the mix.
    fn part<'a>(&self, take: &'a NormalTake) -> Part<'a>
        ensures { part_of result ≡ take_of self.now (take_seen take.now) }
    {
        let setting = match self.settings.get(take.track as usize) {
            Some(setting) => *setting,
            None => Setting {
                fast: false,
                mono: false,
                scale: 0,
            },
        };
        Part {
            frames: take.frames.as_slice(),
            mono: setting.mono,
            gains: take.slot.gains,
            scale: setting.scale,
        }
    }

    /// The frames that a turn with these takes put into the pipe: one buffer of their mix, if there are some. Memory is its only refusal.
    pub fn put(&self, alloc: Global, takes: &[NormalTake]) -> Result<Vec<Frame>, Memory>
        requires sizes { (self.now.frames ≤ 1024) × (self.now.normal ≤ 16) }
        ensures { IfOk result (λ frames. frames.items ≡ put_by self.now (map take_seen takes.now)) }
    {
        if takes.is_empty() {
            return Ok(Vec::new(alloc));
        }
        let mut parts = Vec::with_capacity(alloc, takes.len())?;
        for take in takes {
            parts.push(self.part(take))?;
        }
        mix_of(alloc, parts.as_slice(), self.asked() as usize)
    }
}
