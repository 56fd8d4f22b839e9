//! Which slot a track gets, what comes home, and which command the next state has.
ghost use Rattle.std.specs.Prelude.{◌≡◌, ◌<◌};
ghost use Rattle.std.specs.List.{list_any};
ghost use Rattle.af_base.specs.Log.{slots};
ghost use Rattle.af_life.specs.Kept.{is_home, is_lent, is_returning, slot_number, plays};
ghost use Rattle.af_life.specs.Obeys.{holds, free_slot};
ghost use Rattle.af_life.specs.Edits.{comes_home, welcomed, lent_by, must_leave, must_enter, is_over, next_command};

use crate::heard::NO_COUNTS;
use crate::kept::{Heard, Holder, TrackKept};
use af_base::{Command, FastState, SLOTS};
use af_model::carries_item;

impl TrackKept {
    /// The slot of the track, 0 if it has none.
    pub fn slot_number(self) -> u32
        ensures { result ≡ slot_number self }
    {
        match self.slot {
            Some(slot) => slot,
            None => 0,
        }
    }

    // Whether the track has this slot: from its OPEN until it has ended and its proxy is home.
    fn holds(self, slot: u32) -> bool
        ensures { result ≡ holds slot self }
    {
        let is_free = self.life.ended && self.holder == Holder::Home;
        self.slot == Some(slot) && !is_free
    }

    /// Whether the track's proxy comes home once the last state pushed is acknowledged: it is returning, and that state no longer carries its slot.
    pub fn comes_home(self, last: &FastState) -> bool
        requires slot { slot_number self < slots }
        ensures { result ≡ comes_home last.now self }
    {
        self.holder == Holder::Returning && !carries_item(last, self.slot_number() as usize)
    }

    /// The track once the last state pushed is acknowledged: its proxy is home if it comes by that.
    #[tactic(auto, unfolding(crate::specs::Edits::welcomed))]
    pub fn welcomed(self, last: &FastState) -> TrackKept
        requires slot { slot_number self < slots }
        ensures { result ≡ welcomed last.now self }
    {
        if !self.comes_home(last) {
            return self;
        }
        TrackKept {
            holder: Holder::Home,
            ..self
        }
    }

    /// The track lent by a draft: from here on it is known by the reports of its slot's new generation. `own` is what its proxy knows.
    pub fn lent_by(self, draft: &FastState, own: Heard) -> TrackKept
        requires slot { slot_number self < slots }
        ensures { result ≡ lent_by draft.now own self }
    {
        TrackKept {
            holder: Holder::Lent,
            generation: draft.slots[self.slot_number() as usize].generation,
            at_attach: own,
            reported: NO_COUNTS,
            ..self
        }
    }

    /// Whether the track is to be detached: it is lent, and not to be heard.
    pub fn must_leave(self) -> bool
        ensures { result ≡ must_leave self }
    {
        self.holder == Holder::Lent && !self.plays()
    }

    /// Whether the track is to be attached: its proxy is home, it has a slot, and it is to be heard.
    pub fn must_enter(self) -> bool
        ensures { result ≡ must_enter self }
    {
        self.holder == Holder::Home && self.slot.is_some() && self.plays()
    }
}

// Whether a track has this slot.
fn is_held(tracks: &[TrackKept], slot: u32) -> bool
    ensures { result ≡ list_any (holds slot) tracks.now }
{
    tracks.iter().any(|track| track.holds(slot))
}

/// The lowest slot, from 1 on, that no track has; None if each has a track.
pub fn free_slot(tracks: &[TrackKept]) -> Option<u32>
    ensures { result ≡ free_slot tracks.now }
{
    (1..SLOTS as u32).find(|slot| !is_held(tracks, *slot))
}

// Whether every life has ended and every proxy is home.
fn is_over(tracks: &[TrackKept]) -> bool
    ensures { result ≡ is_over tracks.now }
{
    tracks
        .iter()
        .all(|track| track.life.ended && track.holder == Holder::Home)
}

// Whether a track is to be heard.
fn any_plays(tracks: &[TrackKept]) -> bool
    ensures { result ≡ list_any (λ s. plays s.life) tracks.now }
{
    tracks.iter().any(|track| track.plays())
}

/// The command of the next state: an Exit stays, and comes if every life has ended, every proxy is home and the pipe has all its room; a mix if a track is to be heard or frames are in the pipe; else cold idle.
#[tactic(auto, unfolding(crate::specs::Edits::next_command))]
pub fn next_command(exits: bool, tracks: &[TrackKept], room: u32, size: u32) -> Command
    ensures { result ≡ next_command exits tracks.now room size }
{
    if exits || is_over(tracks) && room == size {
        return Command::Exit;
    }
    if any_plays(tracks) || room != size {
        return Command::MixWrite;
    }
    Command::ColdIdle
}
