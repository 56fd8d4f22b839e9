//! What a session is played on, made before its first turn.
ghost use Rattle.std.specs.Prelude.{IfOk};
ghost use Rattle.af_rendering.specs.Stages.{IsNewStage};

use af_base::Memory;
use af_engine::Shared;
use af_script::Script;
use af_session::{Parties, Room, make};
use std::alloc::Global;

/// The parties of a session with what they share, and the room that their rounds need.
#[derive(Drop)]
pub struct Stage {
    pub shared: Shared,
    pub parties: Parties,
    pub room: Room,
}

impl Stage {
    /// The stage of a script, before its first turn. Memory is the only refusal.
    pub fn make(alloc: Global, script: &Script) -> Result<Self, Memory>
        ensures { IfOk result (IsNewStage script.now) }
    {
        let tracks = script.tracks().len();
        let room = Room::make(alloc, script.frames() as usize, tracks)?;
        let (shared, parties) = make(alloc, script)?;
        Ok(Stage {
            shared,
            parties,
            room,
        })
    }
}
