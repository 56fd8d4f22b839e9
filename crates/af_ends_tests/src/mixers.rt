//! The mixers of the tests.
use af_base::Frame;
use af_engine::{EngineTrack, MakeError, MixerSpec};
use af_mixer_ends::{FastEnd, NormalEnd, TrackEnd, open_mixer};
use std::alloc::Global;

/// A fast stereo track of eight frames.
pub(crate) const FAST: EngineTrack = EngineTrack {
    fast: true,
    mono: false,
    positional: true,
    scale: 0x1000,
    frames: 8,
    base: 0,
};

/// The same by way of the normal mixer.
pub(crate) const PLAIN: EngineTrack = EngineTrack {
    fast: false,
    ..FAST
};

pub(crate) const SILENCE: Frame = Frame { left: 0, right: 0 };

/// The ends of a mixer.
#[derive(Drop)]
pub(crate) struct Mixer {
    pub normal: NormalEnd,
    pub fast: FastEnd,
    pub tracks: Vec<TrackEnd>,
}

impl Mixer {
    /// A mixer of this spec.
    pub(crate) fn of(alloc: Global, spec: &MixerSpec<'_>) -> Result<Mixer, MakeError> {
        let (normal, fast, tracks) = open_mixer(alloc, spec)?;
        Ok(Mixer {
            normal,
            fast,
            tracks,
        })
    }
}
