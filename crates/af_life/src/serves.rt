//! A track's part of a turn, by the looks at its commands and by what was heard of its stream.
ghost use Rattle.std.specs.Prelude.{◌≡◌, ◌+◌, ◌<◌, ◌^◌, length};
ghost use Rattle.std.specs.List.{list_any};
ghost use Rattle.af_life.specs.Kept.{plays};
ghost use Rattle.af_life.specs.Obeys.{is_shut, after_looks, commanded};
ghost use Rattle.af_life.specs.Serves.{status_word, stored_over, is_found_shut, after_part};

use crate::kept::{Heard, TrackKept};
use af_base::{CommandLook, Seen};

// A status word has 24 bits for the commands settled: their count begins anew here.
const SETTLED_END: u64 = 0x0100_0000;

impl TrackKept {
    /// The status word: the state, or 15 for a track found shut; 16 if it is drained; and 256 for each command settled, modulo 2^32.
    #[tactic(auto, unfolding(crate::specs::Serves::status_word))]
    pub fn status_word(self, shut: bool) -> u32
        ensures { result ≡ status_word shut self }
    {
        let code = if shut { 15 } else { self.life.state.code() };
        let drained = if self.life.drained { 16 } else { 0 };
        let settled = (self.settled % SETTLED_END) as u32;
        code + drained + 256 * settled
    }

    // The track after some looks at its commands, up to one that ends them.
    fn after_looks(self, given: Option<u32>, flush_seen: u32, looks: &[CommandLook]) -> TrackKept
        requires room { self.settled + length looks.now < 2 ^ 62 }
        ensures { result ≡ after_looks given flush_seen looks.now self }
    {
        let mut track = self;
        for look in looks {
            track = track.after_look(given, flush_seen, *look);
            if !track.goes_on(*look) {
                return track;
            }
        }
        track
    }

    /// The track after the looks at its commands, up to one that ends them. If a START waits none of them is obeyed.
    pub fn commanded(self, given: Option<u32>, flush_seen: u32, looks: &[CommandLook]) -> TrackKept
        requires room { self.settled + length looks.now < 2 ^ 62 }
        ensures { result ≡ commanded given flush_seen looks.now self }
    {
        if self.awaits.is_some() {
            return self;
        }
        self.after_looks(given, flush_seen, looks)
    }

    /// The track after its part of a turn: its commands are obeyed, its life goes by what was heard of the stream, and the status follows.
    /// `given` is the slot that an OPEN gets, and `self` is the track once what was heard was noted and a START that waited was settled.
    #[tactic(auto, unfolding(crate::specs::Serves::after_part))]
    pub fn after_part(self, given: Option<u32>, heard: Heard, looks: &[CommandLook]) -> TrackKept
        requires room { self.settled + length looks.now < 2 ^ 62 }
        ensures { result ≡ after_part given heard looks.now self }
    {
        let mut track = self.commanded(given, heard.flush_seen, looks);
        let (life, _) = track.life.on_report(heard.known);
        track.life = life;
        track.status = track.status_word(is_found_shut(heard, looks));
        track
    }

    /// Whether the track is to be heard: it is in the mix and has not ended.
    pub fn plays(self) -> bool
        ensures { result ≡ plays self.life }
    {
        self.life.member && !self.life.ended
    }
}

/// The status word that is stored: none if it is the same as the last one.
pub fn stored_over(last: u32, word: u32) -> Option<u32>
    ensures { result ≡ stored_over last word }
{
    if word == last { None } else { Some(word) }
}

// Whether a look found the command block shut.
fn is_shut(seen: Seen) -> bool
    ensures { result ≡ is_shut seen }
{
    matches!(seen, Seen::Shut { .. })
}

fn any_shut(looks: &[CommandLook]) -> bool
    ensures { result ≡ list_any (λ look. is_shut look.seen) looks.now }
{
    looks.iter().any(|look| is_shut(look.seen))
}

/// Whether a turn found the track shut: its stream block, or by a look its command block.
pub fn is_found_shut(heard: Heard, looks: &[CommandLook]) -> bool
    ensures { result ≡ is_found_shut heard looks.now }
{
    heard.known.shut || any_shut(looks)
}
