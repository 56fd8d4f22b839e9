//! What the parties of a control block saw and did, call by call and step by step.

/// What one call of a client's proxy saw and did.
///
/// The words are those that the call read or wrote, as they stood then.
#[derive(Clone, Copy, Debug, PartialEq, Eq)]
pub enum ClientCall {
    /// Frames were written: the front seen, and how many.
    Put {
        front: u32,
        count: u32,
    },
    /// No room was seen.
    Full {
        front: u32,
    },
    /// INVALID was seen in the flags.
    Dead {
        flags: u32,
    },
    /// Front and rear lie further apart than the block has frames.
    Corrupt {
        front: u32,
        rear: u32,
    },
    /// DISABLED was cleared: the flags before.
    Cleared {
        flags: u32,
    },
    /// A flush was asked for: the new count.
    Flush {
        count: u32,
    },
    /// The gains were set: left in the low half, right in the high half.
    Gain {
        word: u32,
    },
    /// A command was sent.
    Sent {
        front: u32,
        code: u32,
        argument: u32,
    },
    /// No room for a command was seen.
    SendFull {
        front: u32,
    },
    /// INVALID was seen in the flags of the command block.
    SendDead {
        flags: u32,
    },
    /// Front and rear of the command block lie further apart than it has frames.
    SendCorrupt {
        front: u32,
        rear: u32,
    },
    /// The status word seen.
    Status {
        word: u32,
    },
    /// A word of the stream block, or of the command block, was overwritten.
    Poke {
        command: bool,
        word: u32,
        value: u32,
    },
}

/// What a client saw or did, in one atomic step.
#[derive(Clone, Copy, Debug, PartialEq, Eq)]
pub enum ClientEvent {
    /// Rear was raised by `count` frames, whose cells were stored before.
    Release { count: u32 },
    /// The flush count was raised by one.
    Flush,
    /// The gain word was stored.
    SetGain { word: u32 },
    /// DISABLED was cleared: the flags before.
    ClearFlags { old: u32 },
    /// The flags seen if INVALID is set in them, and else 0.
    SawFlags { flags: u32 },
    /// The front seen.
    SawFront { front: u32 },
    /// The status word seen.
    SawStatus { word: u32 },
    /// Any word was overwritten out of turn.
    Poke { word: u32, value: u32 },
    /// So many of the server's events are known to stand before.
    Learn { count: u64 },
}

/// What a server saw or did, in one atomic step.
#[derive(Clone, Copy, Debug, PartialEq, Eq)]
pub enum ServerEvent {
    /// The gain word seen.
    SawGain { word: u32 },
    /// The flush count seen.
    SawFlush { flush: u32 },
    /// The rear seen.
    SawRear { rear: u32 },
    /// The front seen.
    SawFront { front: u32 },
    /// Front was set to this word after a flush was noticed: all frames before it are discarded.
    Drop { to: u32 },
    /// Front was raised by `count` frames, whose cells were read before.
    Take { count: u32 },
    /// Missing frames were added to the underrun count.
    Tally { missing: u32 },
    /// Flags were set.
    SetFlags { bits: u32 },
    /// The status word was stored.
    SetStatus { word: u32 },
    /// So many of the client's events are known to stand before.
    Learn { count: u64 },
}

/// What the normal mixer's hand on a stream block did, in one atomic step.
#[derive(Clone, Copy, Debug, PartialEq, Eq)]
pub enum HandEvent {
    /// Flags were set.
    SetFlags { bits: u32 },
    /// A meeting with the client, which had made so many events.
    Met { client: u64 },
}
