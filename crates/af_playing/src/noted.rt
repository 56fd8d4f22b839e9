//! What is noted of a play.
ghost use Rattle.std.specs.Prelude.{◌≡◌, length};
ghost use Rattle.af_playing.specs.PlayedStages.{NotesNone};

use af_model::Rounds;
use af_script::Script;
use af_side_by_side::Logging;
use std::alloc::Global;

/// What is noted of a play, round by round: the rounds that its journal will tell, and the log if one is kept.
#[derive(Drop)]
pub(crate) struct Noted {
    pub(crate) rounds: Rounds,
    pub(crate) logging: Logging,
}

impl Noted {
    /// No round yet, and this log.
    pub(crate) fn of(alloc: Global, script: &Script, logging: Logging) -> Self
        ensures none { NotesNone (length script.now.tracks) result }
        ensures log { result.logging ≡ logging }
    {
        let rounds = Rounds::new(alloc, script.tracks().len() as u32);
        Noted { rounds, logging }
    }
}
