//! Refusals.

/// Why a command was not sent. The life of the track goes on as it was.
#[derive(Clone, Copy, Debug, PartialEq, Eq)]
pub enum CommandError {
    /// 64 commands are on their way: a turn of the normal mixer makes room.
    Full,
    /// INVALID was seen on the command block.
    Dead,
    /// A count has come to its end: 2^62 words of commands, or 2^32 frames released where a stop would tell them.
    Limit,
}
