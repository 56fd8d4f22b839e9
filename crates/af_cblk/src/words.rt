//! Where each word of a block lies, and the flags. They are those of AOSP's `AudioTrackSharedStreaming` (`mFront`, `mRear`, `mFlush`, `mUnderrunFrames`) and `audio_track_cblk_t` (`mFlags`, `mVolumeLR`), with a status word and the cells behind them.

/// The server's position: all frames before it were taken or dropped.
pub(crate) const FRONT: usize = 0;
/// The client's position: all frames before it were released.
pub(crate) const REAR: usize = 1;
/// The flush word: how many flushes the client asked for, or for a positional block also the place of its last flush.
pub(crate) const FLUSHES: usize = 2;
/// How many frames were missing. It is a sum in 64 bits, of which the low 32 bits count.
pub(crate) const UNDERRUNS: usize = 3;
/// UNDERRUN 0x01, INVALID 0x04 and DISABLED 0x08.
pub(crate) const FLAGS: usize = 4;
/// The gains in 4.12: left in the low 16 bits, right in the high 16 bits.
pub(crate) const GAINS: usize = 5;
/// The server's answer to the client's commands.
pub(crate) const STATUS: usize = 6;
/// The first cell. Each cell holds the word of one frame.
pub(crate) const CELLS: usize = 7;

/// Each gain is 0x1000, which is 1.
pub(crate) const UNITY_GAINS: u64 = 0x1000_1000;
