//! Whether a turn did for a track what is due: as many looks at its commands, the mark and the status.
ghost use Rattle.std.specs.Prelude.{◌≡◌, ◌↔◌, ◌+◌, ◌<◌, ◌≤◌, ◌^◌, IsTrue, length};
ghost use Rattle.af_base.specs.Turn.{track_seen};
ghost use Rattle.af_life.specs.Kept.{nothing_seen};
ghost use Rattle.af_life.specs.Obeys.{are_due};
ghost use Rattle.af_life.specs.Reports.{told_by_report};
ghost use Rattle.af_life.specs.Serves.{HasDueLooks, IsServed, after_commands, after_part, most_looks, stored_over};

use af_base::{CommandLook, TrackTurn};
use af_life::{Heard, TrackKept, stored_over};

/// How many looks at the command block a turn makes at most.
pub const MOST_LOOKS: usize = 64;

/// A track when its commands are looked at: the slot that an OPEN gives, what was heard of its stream, and what is kept of it once that was noted.
#[derive(Clone, Copy)]
pub struct Ready {
    pub given: Option<u32>,
    pub heard: Heard,
    pub track: TrackKept,
}

/// Whether a turn did nothing for a track.
pub fn is_passed(seen: &TrackTurn) -> bool
    ensures { IsTrue result ↔ (track_seen seen.now ≡ nothing_seen) }
{
    seen.looks.as_slice().is_empty() && seen.status.is_none() && !seen.disabled
}

// Whether the status word was stored if it differs from the last one, and else none.
fn is_stored(status: Option<u32>, last: u32, word: u32) -> bool
    ensures { IsTrue result ↔ (status ≡ stored_over last word) }
{
    status == stored_over(last, word)
}

impl Ready {
    // Whether the looks are as many as are due: they end with the first that ends them, or with the last that may be made.
    fn are_due(self, looks: &[CommandLook]) -> bool
        requires room { self.track.settled < 2 ^ 30 }
        ensures { result ≡ are_due most_looks self.given self.heard.flush_seen looks.now self.track }
    {
        let mut track = self.track;
        for made in 0..looks.len() {
            if made == MOST_LOOKS {
                return false;
            }
            track = track.after_look(self.given, self.heard.flush_seen, looks[made]);
            if !track.goes_on(looks[made]) {
                return made + 1 == looks.len();
            }
        }
        looks.len() == MOST_LOOKS
    }

    // No look if a START waits, else those that are due.
    fn has_due_looks(self, looks: &[CommandLook]) -> bool
        requires room { self.track.settled < 2 ^ 30 }
        ensures { IsTrue result ↔ HasDueLooks self.given self.heard.flush_seen looks.now self.track }
    {
        if self.track.awaits.is_some() {
            return looks.is_empty();
        }
        self.are_due(looks)
    }

    /// The track after its part of the turn.
    pub fn served(self, looks: &[CommandLook]) -> TrackKept
        requires room { self.track.settled + length looks.now < 2 ^ 24 }
        ensures { result ≡ after_part self.given self.heard looks.now self.track }
    {
        self.track.after_part(self.given, self.heard, looks)
    }

    // Whether the looks leave a life that the report disables.
    fn is_told(self, looks: &[CommandLook]) -> bool
        requires room { self.track.settled + length looks.now < 2 ^ 24 }
        ensures { result ≡ told_by_report self.heard.known (after_commands self.given self.heard looks.now self.track).life }
    {
        let obeyed = self
            .track
            .commanded(self.given, self.heard.flush_seen, looks);
        let (_, disabled) = obeyed.life.on_report(self.heard.known);
        disabled
    }

    /// Whether the looks are those due, DISABLED is set if the report says so, and the status is stored if it is new.
    pub fn is_served(self, seen: &TrackTurn) -> bool
        requires room { self.track.settled + length seen.now.looks.items < 2 ^ 24 }
        ensures { IsTrue result ↔ IsServed self.given self.heard (track_seen seen.now) self.track }
    {
        let looks = seen.looks.as_slice();
        if !self.has_due_looks(looks) || seen.disabled != self.is_told(looks) {
            return false;
        }
        is_stored(seen.status, self.track.status, self.served(looks).status)
    }
}
