//! Refusals.

/// Why a call of an end refused. Unless a call says otherwise, a refusal changes nothing.
#[derive(Clone, Copy, Debug, PartialEq, Eq)]
pub enum EndError {
    /// An argument is outside the range that the call names.
    Argument,
    /// Out of memory: an allocation was refused. Only a call that opens answers so.
    Memory,
    /// The client of a stream has seen INVALID in the flags: its server has invalidated the stream. The frames were not written.
    Dead,
    /// The server of a stream has seen a front and a rear that do not fit the block, in this call or in an earlier one. That server looks no more.
    Corrupt,
    /// A count has come to its end: 2^62 frames released, supplied or read, 2^63 settings, or as many flushes as flush words can distinguish.
    Limit,
}
