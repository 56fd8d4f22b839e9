//! What a mixer is made of, and what is refused.
ghost use Rattle.std.specs.Prelude.{◌≡◌, ◌*◌, ◌^◌, ◌≤◌, true, false, length, slice_get, Some, All, IfErr, OnOk};
ghost use Rattle.af_engine.specs.MixerSpecs.{IsCause, IsEngineTrack, IsMixerSpec, IsOutside};

// The most frames of a cycle.
const MOST_FRAMES: u32 = 1024;

// The most cycles of a normal buffer.
const MOST_NORMAL: u32 = 16;

// The most cycles of the log.
const MOST_CYCLES: u32 = 100_000;

// The most frames of all cycles of the log.
const MOST_LOG: u32 = 1 << 21;

// The most tracks.
const MOST_TRACKS: usize = 32;

// The most frames of a stream block.
const MOST_BUFFER: u32 = 8192;

// A scale of 1 in 4.12.
const UNITY_SCALE: u16 = 0x1000;

/// What a track of a mixer is.
#[derive(Clone, Copy, Debug, PartialEq, Eq)]
pub struct EngineTrack {
    /// Whether it asks for a slot of the fast mixer. Without one the normal mixer mixes it.
    pub fast: bool,
    /// Whether its frames have one channel, the left. Otherwise they have two.
    pub mono: bool,
    /// Whether a flush discards only what was released before it. Otherwise it discards all that was released when it is seen.
    pub positional: bool,
    /// The scale of its gains in 4.12, at most 0x1000.
    pub scale: u16,
    /// The frames of its stream block, 1 to 8192.
    pub frames: u32,
    /// The position at which the counters of its stream block start.
    pub base: u32,
}

/// What a mixer is made of.
#[derive(Clone, Copy, Drop)]
pub struct MixerSpec<'a> {
    /// The frames of a cycle of the fast mixer, 1 to 1024.
    pub frames: u32,
    /// The cycles of a normal buffer, 1 to 16.
    pub normal: u32,
    /// The cycles of the fast mixer's log, 1 to 100000, of at most 2^21 frames together.
    pub cycles: u32,
    /// The tracks, 1 to 32, in the order of their numbers.
    pub tracks: &'a [EngineTrack],
}

/// The first number of a spec that doesn't fit.
#[derive(Clone, Copy, Debug, PartialEq, Eq)]
pub enum SpecError {
    /// The frames of a cycle.
    Frames,
    /// The cycles of a normal buffer.
    Normal,
    /// The cycles of the log.
    Cycles,
    /// The frames of all cycles of the log.
    Log,
    /// How many tracks there are.
    Tracks,
    /// The frames of the stream block of a track.
    TrackFrames { track: u32 },
    /// The scale of a track.
    TrackScale { track: u32 },
}

/// Why no mixer was made.
#[derive(Clone, Copy, Debug, PartialEq, Eq)]
pub enum MakeError {
    /// The spec doesn't fit.
    Spec { error: SpecError },
    /// The spec fits, and there was not enough memory.
    Memory,
}

// Whether a number is below the first of these or above the last.
fn is_outside(first: u32, last: u32, number: u32) -> bool
    ensures outside { result ≡ true → IsOutside first last number }
    ensures inside { result ≡ false → (first ≤ number) × (number ≤ last) }
{
    number < first || last < number
}

// The first number of a track that doesn't fit.
fn check_track(number: u32, track: &EngineTrack) -> Result<(), SpecError>
    ensures fits { OnOk result (IsEngineTrack track.now) }
    ensures cause { (spec : MixerSpec) → slice_get spec.tracks.now number ≡ Some track.now → IfErr result (λ error. IsCause error spec) }
{
    if is_outside(1, MOST_BUFFER, track.frames) {
        return Err(SpecError::TrackFrames { track: number });
    }
    if track.scale > UNITY_SCALE {
        return Err(SpecError::TrackScale { track: number });
    }
    Ok(())
}

impl MixerSpec<'_> {
    // The first of its sizes that doesn't fit.
    fn check_sizes(&self) -> Result<(), SpecError>
        ensures frames { OnOk result ((1 ≤ self.now.frames) × (self.now.frames ≤ 1024)) }
        ensures normal { OnOk result ((1 ≤ self.now.normal) × (self.now.normal ≤ 16)) }
        ensures cycles { OnOk result ((1 ≤ self.now.cycles) × (self.now.cycles ≤ 100000)) }
        ensures log { OnOk result (self.now.cycles * self.now.frames ≤ 2 ^ 21) }
        ensures cause { IfErr result (λ error. IsCause error self.now) }
    {
        if is_outside(1, MOST_FRAMES, self.frames) {
            return Err(SpecError::Frames);
        }
        if is_outside(1, MOST_NORMAL, self.normal) {
            return Err(SpecError::Normal);
        }
        if is_outside(1, MOST_CYCLES, self.cycles) {
            return Err(SpecError::Cycles);
        }
        if self.cycles * self.frames > MOST_LOG {
            return Err(SpecError::Log);
        }
        Ok(())
    }

    // The first of its tracks that doesn't fit.
    fn check_tracks(&self) -> Result<(), SpecError>
        requires { length self.now.tracks.now ≤ 32 }
        ensures fits { OnOk result (All IsEngineTrack self.now.tracks.now) }
        ensures cause { IfErr result (λ error. IsCause error self.now) }
    {
        for (index, track) in self.tracks.iter().enumerate() {
            check_track(index as u32, track)?;
        }
        Ok(())
    }

    /// Answers Ok if a mixer can be made of it, and else its first number that doesn't fit.
    pub fn check(&self) -> Result<(), SpecError>
        ensures fits { OnOk result (IsMixerSpec self.now) }
        ensures cause { IfErr result (λ error. IsCause error self.now) }
    {
        self.check_sizes()?;
        let count = self.tracks.len();
        if count < 1 || count > MOST_TRACKS {
            return Err(SpecError::Tracks);
        }
        self.check_tracks()
    }
}
