//! What is made of a spec, and what is refused.
use af_engine::{Engine, EngineTrack, MakeError, MixerSpec, SpecError, TrackEnds, make};
use std::alloc::Global;
use std::test::*;

// A fast stereo track of eight frames.
const FAST: EngineTrack = EngineTrack {
    fast: true,
    mono: false,
    positional: false,
    scale: 0x1000,
    frames: 8,
    base: 0,
};

// Tracks of each kind, with the least and the greatest numbers.
const KINDS: [EngineTrack; 4] = [
    FAST,
    EngineTrack {
        fast: false,
        positional: true,
        ..FAST
    },
    EngineTrack {
        mono: true,
        frames: 1,
        base: 0xffff_ffff,
        ..FAST
    },
    EngineTrack {
        fast: false,
        mono: true,
        scale: 0,
        frames: 8192,
        ..FAST
    },
];

// Whether the numbers of these tracks are those of their places.
fn are_numbered(tracks: &[TrackEnds]) -> bool {
    let mut so = true;
    for (place, ends) in tracks.iter().enumerate() {
        so = so && ends.track as usize == place;
    }
    so
}

// How many tracks a mixer of this spec has, and whether each has its number.
fn made(alloc: Global, spec: &MixerSpec<'_>) -> Result<(usize, bool), MakeError> {
    let (_shared, engine) = make(alloc, spec)?;
    let Engine { tracks, .. } = engine;
    Ok((tracks.len(), are_numbered(&tracks)))
}

#[test]
fn tracks_of_each_kind_are_made(rt: HostRuntime) {
    for (frames, normal, cycles) in [(1, 1, 1), (1024, 16, 2048), (20, 2, 100_000)] {
        let spec = MixerSpec {
            frames,
            normal,
            cycles,
            tracks: &KINDS,
        };
        assert!(rt; made(rt.alloc(), &spec) == Ok((4, true)));
    }
    let spec = MixerSpec {
        frames: 4,
        normal: 1,
        cycles: 8,
        tracks: &[FAST; 32],
    };
    assert!(rt; made(rt.alloc(), &spec) == Ok((32, true)));
}

#[test]
fn numbers_that_do_not_fit_are_refused(rt: HostRuntime) {
    let table = [
        (0, 2, 8, SpecError::Frames),
        (1025, 2, 8, SpecError::Frames),
        (4, 0, 8, SpecError::Normal),
        (4, 17, 8, SpecError::Normal),
        (4, 2, 0, SpecError::Cycles),
        (4, 2, 100_001, SpecError::Cycles),
        (1024, 1, 2049, SpecError::Log),
        (0, 0, 0, SpecError::Frames),
    ];
    for (frames, normal, cycles, error) in table {
        let spec = MixerSpec {
            frames,
            normal,
            cycles,
            tracks: &KINDS,
        };
        assert!(rt; made(rt.alloc(), &spec) == Err(MakeError::Spec { error }));
    }
}

// What is answered to a request for a mixer of these tracks.
fn made_of(alloc: Global, tracks: &[EngineTrack]) -> Result<(usize, bool), MakeError> {
    let spec = MixerSpec {
        frames: 4,
        normal: 1,
        cycles: 8,
        tracks,
    };
    made(alloc, &spec)
}

#[test]
fn tracks_that_do_not_fit_are_refused(rt: HostRuntime) {
    let error = SpecError::Tracks;
    assert!(rt; made_of(rt.alloc(), &[]) == Err(MakeError::Spec { error }));
    assert!(rt; made_of(rt.alloc(), &[FAST; 33]) == Err(MakeError::Spec { error }));
    let table = [
        (
            EngineTrack { frames: 0, ..FAST },
            SpecError::TrackFrames { track: 1 },
        ),
        (
            EngineTrack {
                frames: 8193,
                ..FAST
            },
            SpecError::TrackFrames { track: 1 },
        ),
        (
            EngineTrack {
                scale: 0x1001,
                ..FAST
            },
            SpecError::TrackScale { track: 1 },
        ),
    ];
    for (track, error) in table {
        let tracks = [FAST, track, track];
        assert!(rt; made_of(rt.alloc(), &tracks) == Err(MakeError::Spec { error }));
    }
}
