//! What is tried with a new mixer.
use crate::life_tests::{LIFE, ends, lives};
use crate::mixers::Mixer;
use crate::period_tests::{hears, mixes};
use crate::refusal_tests::{has_bounds, has_room, is_whole};
use af_base::Frame;
use af_engine::{EngineTrack, MakeError, MixerSpec};
use std::alloc::Global;
use std::mem::drop;

/// What is tried with a mixer.
#[derive(Clone, Copy)]
pub(crate) enum Trial {
    /// The steps of a life of the first track.
    Life,
    /// All tracks are removed.
    End,
    /// Each track is written to: the first period has these frames.
    Period([Frame; 4]),
    /// Each track is written to: so many cycles mix.
    Cycles(u32),
    /// Cycles to other places than those of the mixer.
    Places,
    /// As many commands as there is room for.
    Commands,
    /// Gains and frames at their bounds.
    Bounds,
}

impl Trial {
    // How many steps come out as they must, up to one that doesn't: 1 of a trial that has one.
    fn steps(self, mixer: &mut Mixer) -> u32 {
        match self {
            Trial::Life => lives(mixer, LIFE),
            Trial::End => u32::from(ends(mixer)),
            Trial::Period(frames) => u32::from(hears(mixer, &frames)),
            Trial::Cycles(cycles) => mixes(mixer, cycles),
            Trial::Places => u32::from(is_whole(mixer)),
            Trial::Commands => u32::from(has_room(mixer)),
            Trial::Bounds => u32::from(has_bounds(mixer)),
        }
    }

    /// The same with a new mixer of these tracks, with four frames a cycle, one cycle a normal buffer and a log of two cycles, or why none was made.
    pub(crate) fn with(self, alloc: Global, tracks: &[EngineTrack]) -> Result<u32, MakeError> {
        let spec = MixerSpec {
            frames: 4,
            normal: 1,
            cycles: 2,
            tracks,
        };
        let mut mixer = Mixer::of(alloc, &spec)?;
        let steps = self.steps(&mut mixer);
        drop(mixer);
        Ok(steps)
    }
}
