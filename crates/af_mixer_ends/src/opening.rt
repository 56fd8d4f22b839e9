//! How the ends of a mixer are made.
ghost use Rattle.std.specs.Prelude.{◌≡◌, IfOk, IfErr, OnOk, map};
ghost use Rattle.std.specs.Arc.{arc_value};
ghost use Rattle.af_engine.specs.MixerSpecs.{IsMakeCause, IsMixerSpec};
ghost use Rattle.af_mixer_ends.specs.Mixers.{IsFastEnd, IsNormalEnd};
ghost use Rattle.af_mixer_ends.specs.Opening.{AreEnds, AreTrackEnds, IsOpened, Share, end_of};
ghost use Rattle.af_mixer_ends.specs.Tracks.{IsTrackEnd};

use crate::fast_end::FastEnd;
use crate::normal_end::NormalEnd;
use crate::track_end::TrackEnd;
use af_base::Memory;
use af_engine::{Engine, MakeError, MixerSpec, Shared, TrackEnds, make};
use af_fast::FastMixer;
use af_normal::NormalMixer;
use std::alloc::Global;
use std::mem::drop;
use std::sync::Arc;

// The end of a track, with a share of what is shared. Memory is the only refusal.
fn track_end(shared: &Arc<Shared, Global>, ends: TrackEnds) -> Result<TrackEnd, Memory>
    requires { IsTrackEnd (arc_value shared.now) ends }
    ensures { IfOk result (λ end. end ≡ end_of (arc_value shared.now) ends) }
{
    let shared = Arc::try_clone(shared)?;
    Ok(TrackEnd { shared, ends })
}

// The ends of the tracks, in order. Memory is the only refusal.
fn track_ends(
    alloc: Global,
    shared: &Arc<Shared, Global>,
    tracks: Vec<TrackEnds>,
) -> Result<Vec<TrackEnd>, Memory>
    requires { AreTrackEnds (arc_value shared.now) tracks.items }
    ensures { IfOk result (λ ends. ends.items ≡ map (end_of (arc_value shared.now)) tracks.items) }
{
    let mut ends = Vec::new(alloc);
    for one in tracks {
        let end = track_end(shared, one)?;
        ends.push(end)?;
    }
    Ok(ends)
}

// The end of the normal mixer.
fn normal_end(shared: Arc<Shared, Global>, mixer: NormalMixer) -> NormalEnd
    requires { IsNormalEnd (arc_value shared) mixer }
    ensures { result ≡ record { shared = arc_value shared; mixer = mixer } }
{
    NormalEnd { shared, mixer }
}

// The end of the fast mixer, with so many frames a cycle and so many entries a log.
fn fast_end(shared: Arc<Shared, Global>, mixer: FastMixer, frames: usize, cycles: usize) -> FastEnd
    requires { IsFastEnd (arc_value shared) frames cycles mixer }
    ensures { result ≡ record { shared = arc_value shared; mixer = mixer } }
{
    FastEnd {
        shared,
        mixer,
        frames,
        cycles,
    }
}

// Three shares of the same: one for the tracks, and one for each mixer.
#[derive(Drop)]
struct Shares {
    tracks: Arc<Shared, Global>,
    normal: Arc<Shared, Global>,
    fast: Arc<Shared, Global>,
}

// Three shares of this. Memory is the only refusal.
fn shares_of(alloc: Global, shared: Shared) -> Result<Shares, Memory>
    ensures fast { IfOk result (λ s. arc_value s.fast ≡ shared) }
    ensures normal { IfOk result (λ s. arc_value s.normal ≡ shared) }
    ensures tracks { IfOk result (λ s. arc_value s.tracks ≡ shared) }
{
    let fast = Arc::new(alloc, shared)?;
    let normal = Arc::try_clone(&fast)?;
    let tracks = Arc::try_clone(&fast)?;
    Ok(Shares {
        tracks,
        normal,
        fast,
    })
}

// The ends of a mixer, each with one of these shares. Memory is the only refusal.
fn hand_out(
    alloc: Global,
    shares: Shares,
    engine: Engine,
    frames: usize,
    cycles: usize,
) -> Result<(NormalEnd, FastEnd, Vec<TrackEnd>), Memory>
    requires normal { IsNormalEnd (arc_value shares.normal) engine.normal }
    requires fast { IsFastEnd (arc_value shares.fast) frames cycles engine.fast }
    requires tracks { AreTrackEnds (arc_value shares.tracks) engine.tracks }
    ensures normal { IfOk result (λ r. r.0 ≡ record { shared = arc_value shares.normal; mixer = engine.normal }) }
    ensures fast { IfOk result (λ r. r.1 ≡ record { shared = arc_value shares.fast; mixer = engine.fast }) }
    ensures tracks { IfOk result (λ r. r.2.items ≡ map (end_of (arc_value shares.tracks)) engine.tracks) }
{
    let Engine {
        tracks,
        normal,
        fast,
    } = engine;
    let Shares {
        tracks: shared,
        normal: first,
        fast: second,
    } = shares;
    let ends = track_ends(alloc, &shared, tracks);
    drop(shared);
    let Ok(ends) = ends else {
        drop(normal);
        drop(fast);
        drop(first);
        drop(second);
        return Err(Memory);
    };
    let normal = normal_end(first, normal);
    let fast = fast_end(second, fast, frames, cycles);
    Ok((normal, fast, ends))
}

// The ends of a mixer over what they share. Memory is the only refusal.
fn share_out(
    alloc: Global,
    shared: Shared,
    engine: Engine,
    frames: usize,
    cycles: usize,
) -> Result<(NormalEnd, FastEnd, Vec<TrackEnd>), Memory>
    requires { AreEnds shared frames cycles engine }
    ensures { IfOk result (λ r. Share shared engine r.0 r.1 r.2.items) }
{
    let Ok(shares) = shares_of(alloc, shared) else {
        drop(engine);
        return Err(Memory);
    };
    hand_out(alloc, shares, engine, frames, cycles)
}

/// Opens a mixer of this spec: the normal mixer's end, the fast mixer's end, and the end of each track in the order of the spec. Nothing was done on them. What they share is freed with the last of them, whichever that is.
///
/// It refuses a spec that doesn't fit, by its first number that is wrong, and memory is its only other refusal.
pub fn open_mixer(
    alloc: Global,
    spec: &MixerSpec<'_>,
) -> Result<(NormalEnd, FastEnd, Vec<TrackEnd>), MakeError>
    ensures opened { IfOk result (λ r. IsOpened spec.now r.0 r.1 r.2.items) }
    ensures fits { OnOk result (IsMixerSpec spec.now) }
    ensures refused { IfErr result (λ error. IsMakeCause error spec.now) }
{
    let (shared, engine) = make(alloc, spec)?;
    let (frames, cycles) = (spec.frames as usize, spec.cycles as usize);
    let Ok(ends) = share_out(alloc, shared, engine, frames, cycles) else {
        return Err(MakeError::Memory);
    };
    Ok(ends)
}
