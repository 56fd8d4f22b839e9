//! The flags of a control block.

/// Frames were missing when the server looked for them (AOSP's CBLK_UNDERRUN).
pub const UNDERRUN: u32 = 1;

/// The block is dead: its client is to make another one (AOSP's CBLK_INVALID).
pub const INVALID: u32 = 4;

/// The server disabled the track after too many underruns: the client is to start it again (AOSP's CBLK_DISABLED).
pub const DISABLED: u32 = 8;
