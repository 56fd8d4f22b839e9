/// Where a block stands after some events. The numbers are those of frames, flushes and bits, and not words: positions never wrap.
#[derive(Clone, Copy, PartialEq, Eq, PartialOrd, Ord, Debug)]
pub struct TrackPoint {
    /// The position after the last frame that the client released: the base plus the number of frames.
    pub released: u64,
    /// The position after the last frame that the server took or dropped.
    pub consumed: u64,
    /// How many flushes the client asked for.
    pub flushes: u32,
    /// How many flushes the server saw when it loaded the flush word last.
    pub flush_seen: u32,
    /// What was released when the server saw the rear last.
    pub rear_seen: u64,
    /// The gain word: left in the low half, right in the high half.
    pub gains: u32,
    /// The flags, of which 1 is UNDERRUN, 4 is INVALID and 8 is DISABLED.
    pub flags: u32,
    /// The status word.
    pub status: u32,
    /// The frames that were missing, modulo 2^32.
    pub underruns: u32,
    /// The position up to which the client had released at its last flush, and 0 before any.
    pub flush_at: u64,
    /// What `flush_at` was when the server loaded the flush word last.
    pub drop_to: u64,
    /// The wrap of the block's flush words, or 0 if flushes are only counted.
    pub wrap: u32,
}
