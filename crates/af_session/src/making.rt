//! How a session is made of its script.
ghost use Rattle.std.specs.Prelude.{◌≡◌, IfOk};
ghost use Rattle.af_link.specs.declared.links.Links.{Links};
ghost use Rattle.af_engine.specs.declared.spec.MixerSpec.{MixerSpec};
ghost use Rattle.af_engine.specs.Engines.{AreTogether as AreEndsTogether};
ghost use Rattle.af_engine.specs.NewEngine.{IsNewEngine};
ghost use Rattle.af_engine.specs.Shares.{AreLinksOf};
ghost use Rattle.af_script.specs.Form.{IsScript};
ghost use Rattle.af_session.specs.NewSession.{IsNewSession, IsSpecOf};
ghost use Rattle.af_session.specs.Together.{AreTogether};

use crate::parties::Parties;
use crate::tracks::{engine_tracks, new_clients};
use af_base::Memory;
use af_engine::{Engine, MakeError, MixerSpec, Shared};
use af_script::Script;
use std::alloc::Global;
use std::mem::drop;

// The ends of the mixer that a script asks for. Memory is its only refusal.
fn make_ends(alloc: Global, script: &Script) -> Result<(Shared, Engine), Memory>
    ensures script { IsScript script.now }
    ensures new { IfOk result (λ r. (spec : MixerSpec) × IsSpecOf script.now spec × IsNewEngine spec r.0 r.1) }
    ensures together { (links : Links) → IfOk result (λ r. AreLinksOf r.0 links → AreEndsTogether links r.1) }
{
    let tracks = engine_tracks(alloc, script.version(), script.tracks())?;
    let spec = MixerSpec {
        frames: script.frames(),
        normal: script.normal(),
        cycles: script.cycles(),
        tracks: &tracks,
    };
    match af_engine::make(alloc, &spec) {
        Ok(made) => Ok(made),
        Err(MakeError::Memory) => Err(Memory),
        Err(MakeError::Spec { .. }) => unreachable!(),
    }
}

/// A session of a script, before its first turn: what its parties share, and the parties. Memory is its only refusal.
pub fn make(alloc: Global, script: &Script) -> Result<(Shared, Parties), Memory>
    ensures new { IfOk result (λ r. IsNewSession script.now r.0 r.1) }
    ensures together { (links : Links) → IfOk result (λ r. AreLinksOf r.0 links → AreTogether links r.1) }
{
    let (shared, ends) = make_ends(alloc, script)?;
    let Engine {
        tracks,
        normal,
        fast,
    } = ends;
    let Ok(clients) = new_clients(alloc, tracks) else {
        drop(shared);
        drop(normal);
        drop(fast);
        return Err(Memory);
    };
    let parties = Parties {
        clients,
        normal,
        fast,
    };
    Ok((shared, parties))
}
