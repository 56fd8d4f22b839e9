//! The bounds of a script's numbers.

/// The highest version of the rules.
pub const MOST_VERSION: u32 = 2;

/// The most frames of a cycle.
pub const MOST_FRAMES: u32 = 1024;

/// The most buffers of a normal turn.
pub const MOST_NORMAL: u32 = 16;

/// The most cycles of a run.
pub const MOST_CYCLES: u32 = 100000;

/// The most frames of all cycles of a run.
pub const MOST_PRODUCT: u64 = 2097152;

/// The most tracks of a script.
pub const MOST_TRACKS: usize = 32;

/// The most frames of a track's buffer.
pub const MOST_BUFFER: u32 = 8192;

/// The highest position at which a track may start.
pub const MOST_BASE: u32 = 4294967295;

/// A scale that changes nothing, in 4.12; no scale is above it.
pub const UNITY_SCALE: u32 = 4096;

/// The most bytes of a name.
pub const MOST_NAME: usize = 64;

/// The most ops of a track, as they are written.
pub const MOST_OPS: usize = 4096;

/// The most turns of a script.
pub const MOST_TURNS: usize = 100000;

/// The highest number of a gain.
pub const MOST_GAIN: u32 = 65535;

/// The most frames of a write.
pub const MOST_WRITE: u32 = 4194304;

/// The highest value of a poke.
pub const MOST_VALUE: u32 = 4294967295;

/// The most cycles of a fast turn.
pub const MOST_FAST: u32 = 16;

/// The words of a control block before its cells.
pub const HEADER_WORDS: u32 = 7;

/// The frames of a command block.
pub const COMMAND_FRAMES: u32 = 128;
