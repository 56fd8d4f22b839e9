//! What the fast mixer reports after each cycle (AOSP's FastMixerDumpState, with its FastTrackDump of each slot).

use crate::state::SLOTS;

/// What is known of one slot: of the item that it holds, or of the one that it held last. All zeros if it never had one.
#[derive(Clone, Copy, Debug, PartialEq, Eq)]
pub struct SlotReport {
    /// The server's consumed count.
    pub consumed: u64,
    /// Whether the server is shut.
    pub shut: bool,
    /// The slot's generation in the state that brought the item.
    pub generation: u64,
    /// The flush count that the server saw last.
    pub flush_seen: u32,
    /// How many looks since then showed all frames of a cycle, some of them, and none.
    pub fulls: u32,
    pub partials: u32,
    pub empties: u32,
}

/// What the fast mixer reports after some number of cycles.
#[derive(Clone, Copy, Debug, PartialEq, Eq)]
pub struct Report {
    /// The number of entries in its log.
    pub cycle: u64,
    pub slots: [SlotReport; SLOTS],
}
