//! The states of a track.

/// The state of a track's life (AOSP's track_state).
#[derive(Clone, Copy, Debug, PartialEq, Eq)]
pub enum LifeState {
    /// Not opened yet.
    Absent,
    /// Opened, never started.
    Idle,
    /// Playing.
    Active,
    /// A pause was asked for; the next report makes it paused.
    Pausing,
    Paused,
    /// Started from a pause; the next report makes it active.
    Resuming,
    /// A stop was asked for; what was released is still to be consumed.
    Stopping1,
    /// All that was released is consumed; the next report makes it stopped.
    Stopping2,
    Stopped,
    Flushed,
}

impl LifeState {
    ghost use Rattle.std.specs.Prelude.{◌≡◌};
    ghost use Rattle.af_life.specs.State.{life_code};

    /// The state's number in a status word, 0 to 9 in the order of the variants.
    pub fn code(self) -> u32
        ensures { result ≡ life_code self }
    {
        match self {
            LifeState::Absent => 0,
            LifeState::Idle => 1,
            LifeState::Active => 2,
            LifeState::Pausing => 3,
            LifeState::Paused => 4,
            LifeState::Resuming => 5,
            LifeState::Stopping1 => 6,
            LifeState::Stopping2 => 7,
            LifeState::Stopped => 8,
            LifeState::Flushed => 9,
        }
    }
}
