//! A track's life, and what a command and a report make of it.

use crate::{FLUSH, LifeState, OPEN, PAUSE, REMOVE, START, STOP};

/// After so many reports in a row with an empty look and no frames a playing track leaves the mix
/// (AOSP's kMaxTrackRetries).
pub const RETRIES: u32 = 50;

/// The life of a track.
#[derive(Clone, Copy, Debug, PartialEq, Eq)]
pub struct Life {
    pub state: LifeState,
    /// The track is in the mix.
    pub member: bool,
    /// The track was removed or shut. It never plays again.
    pub ended: bool,
    /// A stop let all that was released be consumed, and no start came since.
    pub drained: bool,
    /// After so many more reports with an empty look and no frames a playing track leaves the mix. No call
    /// raises it above `RETRIES`.
    pub retries: u32,
    /// The consumed count at which a stopping track is drained.
    pub stop_at: u64,
}

/// What a turn knows of a track's block.
#[derive(Clone, Copy, Debug, PartialEq, Eq)]
pub struct Known {
    /// The frames consumed so far.
    pub consumed: u64,
    /// The looks since the last turn that showed all the frames that were asked for.
    pub fulls: u32,
    /// The looks since the last turn that showed fewer.
    pub partials: u32,
    /// The looks since the last turn that showed none.
    pub empties: u32,
    /// The block was shut.
    pub shut: bool,
}

ghost use Rattle.std.specs.Prelude.{◌≡◌, ◌<◌, ◌≤◌, ◌⊎◌, ◌&&◌, ◌||◌, ◌==◌, IsTrue, nat_lt, true, false, not, []};
ghost use Rattle.af_life.specs.State.{new_life};
ghost use Rattle.af_life.specs.Commands.{commands, by_command, first_effect, starts};
ghost use Rattle.af_life.specs.Reports.{by_report, told_by_report, counted, retries_after, runs_dry, drains};

/// The life that each track begins with: absent, in no mix, neither ended nor drained, with all its retries.
pub fn fresh() -> Life
    ensures { result ≡ new_life }
{
    Life {
        state: LifeState::Absent,
        member: false,
        ended: false,
        drained: false,
        retries: RETRIES,
        stop_at: 0,
    }
}

impl Life {
    /// What a command makes of the life, by the table of commands. A code that is no command's changes nothing,
    /// and so does a command in a state for which the table has no row. The argument is the command's second
    /// word; only a STOP reads it.
    #[tactic(auto, unfolding(crate::specs::Commands::by_command, crate::specs::Commands::starts))]
    pub fn on_command(self, code: u32, argument: u32) -> Life
        ensures table { result ≡ by_command code argument self }

        // What is no command changes nothing, and no command changes a life that has ended.
        ensures other { (code < OPEN) ⊎ (REMOVE < code) → result ≡ self }
        ensures after_the_end { IsTrue self.ended → result ≡ self }

        // Exactly a REMOVE ends a life. Exactly a START, of a life that is there, makes a member and takes `drained` back.
        ensures ends { result.ended ≡ (self.ended || (code == REMOVE)) }
        ensures member { result.member ≡ (self.member || starts code self) }
        ensures drained { result.drained ≡ (self.drained && not (starts code self)) }
        ensures capped { self.retries ≤ RETRIES → result.retries ≤ RETRIES }
    {
        if self.ended {
            return self;
        }
        match code {
            OPEN => self.opened(),
            START => self.started(),
            PAUSE => self.paused(),
            STOP => self.stopped(argument),
            FLUSH => self.flushed(),
            REMOVE => self.removed(),
            _ => self,
        }
    }

    fn opened(self) -> Life
        ensures { result ≡ first_effect commands OPEN 0 self }
    {
        match self.state {
            LifeState::Absent => Life {
                state: LifeState::Idle,
                ..self
            },
            _ => self,
        }
    }

    fn started(self) -> Life
        ensures { result ≡ first_effect commands START 0 self }
    {
        let state = match self.state {
            LifeState::Absent => return self,
            LifeState::Paused => LifeState::Resuming,
            _ => LifeState::Active,
        };
        Life {
            state,
            member: true,
            drained: false,
            retries: RETRIES,
            ..self
        }
    }

    fn paused(self) -> Life
        ensures { result ≡ first_effect commands PAUSE 0 self }
    {
        match self.state {
            LifeState::Active | LifeState::Resuming => Life {
                state: LifeState::Pausing,
                ..self
            },
            _ => self,
        }
    }

    fn stopped(self, argument: u32) -> Life
        ensures { result ≡ first_effect commands STOP argument self }
    {
        match self.state {
            LifeState::Active | LifeState::Resuming | LifeState::Pausing | LifeState::Paused => {
                if self.member {
                    Life {
                        state: LifeState::Stopping1,
                        stop_at: argument as u64,
                        ..self
                    }
                } else {
                    Life {
                        state: LifeState::Stopped,
                        ..self
                    }
                }
            }
            _ => self,
        }
    }

    fn flushed(self) -> Life
        ensures { result ≡ first_effect commands FLUSH 0 self }
    {
        match self.state {
            LifeState::Absent | LifeState::Active | LifeState::Resuming => self,
            _ => Life {
                state: LifeState::Flushed,
                ..self
            },
        }
    }

    fn removed(self) -> Life
        ensures { result ≡ first_effect commands REMOVE 0 self }
    {
        Life {
            ended: true,
            ..self
        }
    }

    /// What a report makes of the life, by the table of reports, and whether the track is to be disabled:
    /// it played, and an empty look left it no retries.
    #[tactic(auto, unfolding(crate::specs::Reports::by_report, crate::specs::Reports::told_by_report, crate::specs::Reports::runs_dry, crate::specs::Reports::drains))]
    pub fn on_report(self, known: Known) -> (Life, bool)
        ensures table { result.0 ≡ by_report known self }
        ensures told { result.1 ≡ told_by_report known self }

        // Exactly a shut block ends a life, and no report makes a member.
        ensures ends { result.0.ended ≡ (self.ended || known.shut) }
        ensures no_new_member { IsTrue result.0.member → IsTrue self.member }

        // The life is disabled exactly if a playing member's retries reach 0: it leaves the mix, and stays active.
        ensures disabled { result.1 ≡ runs_dry known self }
        ensures disabled_leaves { IsTrue result.1 → result.0 ≡ record self { member = false; retries = 0 } }
        ensures capped { self.retries ≤ RETRIES → result.0.retries ≤ RETRIES }

        // The life is drained exactly if it was, or if a stop finds all consumed.
        ensures drained { result.0.drained ≡ (self.drained || drains known self) }
    {
        if known.shut {
            let ended = Life {
                ended: true,
                member: false,
                ..self
            };
            return (ended, false);
        }
        if self.ended {
            return (self.left(), false);
        }
        match self.state {
            LifeState::Active if self.member => self.counted(known),
            LifeState::Stopping1 if known.consumed >= self.stop_at => (self.drained(), false),
            LifeState::Stopping2 => (self.in_state(LifeState::Stopped).left(), false),
            LifeState::Pausing => (self.in_state(LifeState::Paused), false),
            LifeState::Resuming => (self.in_state(LifeState::Active), false),
            LifeState::Idle | LifeState::Paused | LifeState::Stopped | LifeState::Flushed => {
                (self.left(), false)
            }
            LifeState::Absent | LifeState::Active | LifeState::Stopping1 => (self, false),
        }
    }

    // A playing member: what its looks since the last report made of its retries.
    fn counted(self, known: Known) -> (Life, bool)
        requires { IsTrue self.member }
        ensures life { result.0 ≡ counted known self }
        ensures told { result.1 ≡ (nat_lt 0 known.empties && (retries_after known self.retries == 0)) }
    {
        let seen = known.fulls > 0 || known.partials > 0;
        let retries = if seen { RETRIES } else { self.retries };
        if known.empties == 0 {
            return (Life { retries, ..self }, false);
        }
        let retries = retries.saturating_sub(1);
        let gone = retries == 0;
        let member = !gone;
        (
            Life {
                retries,
                member,
                ..self
            },
            gone,
        )
    }

    fn in_state(self, state: LifeState) -> Life
        ensures { result ≡ record self { state = state } }
    {
        Life { state, ..self }
    }

    fn left(self) -> Life
        ensures { result ≡ record self { member = false } }
    {
        Life {
            member: false,
            ..self
        }
    }

    fn drained(self) -> Life
        ensures { result ≡ record self { state = LifeState.Stopping2; drained = true } }
    {
        Life {
            state: LifeState::Stopping2,
            drained: true,
            ..self
        }
    }
}
