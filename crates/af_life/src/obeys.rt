//! What the commands of a track make of it.
ghost use Rattle.std.specs.Prelude.{◌≡◌, ◌<◌, ◌^◌};
ghost use Rattle.af_life.specs.Obeys.{told, opens, must_wait, obeyed, after_look, ended, goes_on};

use crate::kept::TrackKept;
use crate::{Life, LifeState, OPEN, START};
use af_base::{CommandLook, Seen};

impl Life {
    // A START that isn't ignored, of a flush count that was not seen yet.
    #[tactic(auto, unfolding(crate::specs::Commands::starts))]
    fn must_wait(self, flush_seen: u32, code: u32, argument: u32) -> bool
        ensures { result ≡ must_wait flush_seen code argument self }
    {
        code == START && !self.ended && self.state != LifeState::Absent && argument > flush_seen
    }

    // An OPEN of a track that isn't there yet.
    fn opens(self, code: u32) -> bool
        ensures { result ≡ opens code self }
    {
        code == OPEN && !self.ended && self.state == LifeState::Absent
    }
}

impl TrackKept {
    // The life after a command, and the slot that an OPEN gives.
    fn told(self, given: Option<u32>, code: u32, argument: u32) -> TrackKept
        ensures { result ≡ told given code argument self }
    {
        let slot = if self.life.opens(code) {
            given
        } else {
            self.slot
        };
        TrackKept {
            life: self.life.on_command(code, argument),
            slot,
            ..self
        }
    }

    /// A command makes the life another, and an OPEN gives the slot. The command is settled, but for a START of a flush count that was not seen yet, which waits.
    #[tactic(auto, unfolding(crate::specs::Obeys::obeyed))]
    pub fn obeyed(self, given: Option<u32>, flush_seen: u32, code: u32, argument: u32) -> TrackKept
        requires room { self.settled < 2 ^ 62 }
        ensures { result ≡ obeyed given flush_seen code argument self }
    {
        let told = self.told(given, code, argument);
        if self.life.must_wait(flush_seen, code, argument) {
            return TrackKept {
                awaits: Some(argument),
                ..told
            };
        }
        TrackKept {
            settled: told.settled + 1,
            ..told
        }
    }

    // The track ended, out of the mix.
    fn ended(self) -> TrackKept
        ensures { result ≡ ended self }
    {
        let mut life = self.life;
        life.ended = true;
        life.member = false;
        TrackKept { life, ..self }
    }

    /// What a look at the command block makes of the track: a command is obeyed, and a block that was shut ends the track.
    #[tactic(auto, unfolding(crate::specs::Obeys::after_look))]
    pub fn after_look(self, given: Option<u32>, flush_seen: u32, look: CommandLook) -> TrackKept
        requires room { self.settled < 2 ^ 62 }
        ensures { result ≡ after_look given flush_seen look self }
    {
        match look.seen {
            Seen::Frames { count } if count == 2 => {
                self.obeyed(given, flush_seen, look.code, look.argument)
            }
            Seen::Shut { .. } => self.ended(),
            _ => self,
        }
    }

    /// Whether a further look follows this one, which made the track what it is: it showed a command, and no START waits.
    pub fn goes_on(self, look: CommandLook) -> bool
        ensures { result ≡ goes_on look self }
    {
        look.seen.count() == 2 && self.awaits.is_none()
    }
}
