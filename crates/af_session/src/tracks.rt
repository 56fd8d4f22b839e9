//! A script's tracks as a mixer sees them, and the clients of its ends.
ghost use Rattle.std.specs.Prelude.{◌≡◌, length, map, IfOk};
ghost use Rattle.af_session.specs.NewTracks.{AreNewClients, IsClientOf, engine_track};

use af_base::{Items, Memory};
use af_engine::{EngineTrack, TrackEnds};
use af_party::Party;
use af_runs::Client;
use af_script::TrackSpec;
use std::alloc::Global;

/// The most calls of a client's turn.
pub(crate) const MOST_CALLS: usize = 64;

// A track as a mixer sees it. By the second version of scripts its flushes carry positions.
fn engine_track(version: u32, spec: &TrackSpec) -> EngineTrack
    ensures { result ≡ engine_track version spec.now }
{
    EngineTrack {
        fast: spec.fast,
        mono: spec.mono,
        positional: version == 2,
        scale: spec.scale,
        frames: spec.frames,
        base: spec.base,
    }
}

/// The tracks as a mixer sees them. Memory is its only refusal.
pub(crate) fn engine_tracks(
    alloc: Global,
    version: u32,
    specs: &[TrackSpec],
) -> Result<Vec<EngineTrack>, Memory>
    ensures { IfOk result (λ tracks. tracks.items ≡ map (engine_track version) specs.now) }
{
    let mut tracks = Vec::new(alloc);
    for spec in specs {
        tracks.push(engine_track(version, spec))?;
    }
    Ok(tracks)
}

// The client with these ends, before its first turn.
fn client_of(alloc: Global, ends: TrackEnds) -> Result<Party, Memory>
    ensures { IfOk result (IsClientOf ends) }
{
    let calls = Items::with_room(alloc, MOST_CALLS)?;
    let TrackEnds {
        track,
        stream,
        command,
    } = ends;
    Ok(Party {
        track,
        client: Client::new(),
        stream,
        command,
        calls,
    })
}

/// The clients with these ends, in order, before their first turns. Memory is its only refusal.
pub(crate) fn new_clients(alloc: Global, ends: Vec<TrackEnds>) -> Result<Vec<Party>, Memory>
    ensures { IfOk result (λ clients. AreNewClients ends.items clients.items) }
{
    let mut clients = Vec::new(alloc);
    for one in ends {
        let client = client_of(alloc, one)?;
        clients.push(client)?;
    }
    Ok(clients)
}
