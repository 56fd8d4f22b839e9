//! What a state asks of the fast mixer (AOSP's FastMixerState), and what a push of one answers.

/// The number of slots of a state. Slot 0 is the normal mixer's submix.
pub const SLOTS: usize = 32;

/// What the fast mixer is to do.
#[derive(Clone, Copy, Debug, PartialEq, Eq)]
pub enum Command {
    Initial,
    HotIdle,
    ColdIdle,
    Idle,
    Exit,
    Mix,
    Write,
    MixWrite,
}

impl Command {
    ghost use Rattle.std.specs.Prelude.{◌≡◌};
    ghost use Rattle.af_base.specs.Command.{code_of};

    /// The number of a command, as AOSP has it.
    pub fn code(self) -> u32
        ensures { result ≡ code_of self }
    {
        match self {
            Command::Initial => 0,
            Command::HotIdle => 1,
            Command::ColdIdle => 2,
            Command::Idle => 3,
            Command::Exit => 4,
            Command::Mix => 8,
            Command::Write => 16,
            Command::MixWrite => 24,
        }
    }
}

/// One slot of a state.
#[derive(Clone, Copy, Debug, PartialEq, Eq)]
pub struct FastTrack {
    /// Rises with each attach to the slot.
    pub generation: u64,
    /// The number of the track, from 0.
    pub track: u32,
    /// The track is mono: its left sample goes to both sides.
    pub mono: bool,
    /// A 4.12 scale of its gains, at most 0x1000.
    pub scale: u16,
}

/// A state of the fast mixer.
#[derive(Clone, Copy, Debug, PartialEq, Eq)]
pub struct FastState {
    pub slots: [FastTrack; SLOTS],
    /// Bit i is set exactly if slot i is active. Bit 0 is always set.
    pub mask: u32,
    /// Rises with each attach and each detach.
    pub tracks_gen: u64,
    /// The frames of one cycle.
    pub frames: u32,
    pub command: Command,
    /// Rises with each change to ColdIdle.
    pub cold_gen: u64,
}

/// What a push of a state answered.
#[derive(Clone, Copy, Debug, PartialEq, Eq)]
pub enum Push {
    /// The state was pushed, and this is its number, from 1.
    Pushed { number: u64 },
    /// Nothing had changed.
    Clean,
    /// The last push isn't acknowledged yet: the cell number seen, and the one that is waited for.
    Busy { seen: u32, expected: u32 },
}
