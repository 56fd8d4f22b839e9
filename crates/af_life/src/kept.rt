//! What the normal mixer keeps of its tracks from turn to turn, in plain values.

use crate::{Known, Life};

/// Who has the stream proxy of a track.
#[derive(Clone, Copy, Debug, PartialEq, Eq)]
pub enum Holder {
    /// The normal mixer.
    Home,
    /// The proxy is attached to a slot.
    Lent,
    /// The proxy was detached, and isn't taken back yet.
    Returning,
}

/// How many looks showed all that was asked for, some of it, and none.
#[derive(Clone, Copy, Debug, PartialEq, Eq)]
pub struct Counts {
    pub fulls: u32,
    pub partials: u32,
    pub empties: u32,
}

/// What is known of a track's stream proxy.
#[derive(Clone, Copy, Debug, PartialEq, Eq)]
pub struct Heard {
    /// What the track's life goes by.
    pub known: Known,
    /// The flush count seen last.
    pub flush_seen: u32,
}

/// What a track is by its script.
#[derive(Clone, Copy, Debug, PartialEq, Eq)]
pub struct Setting {
    pub fast: bool,
    pub mono: bool,
    /// A 4.12 scale of its gains, at most 0x1000.
    pub scale: u16,
}

/// What the normal mixer keeps of a track.
#[derive(Clone, Copy, Debug, PartialEq, Eq)]
pub struct TrackKept {
    pub life: Life,
    pub holder: Holder,
    /// The slot given at OPEN.
    pub slot: Option<u32>,
    /// The slot's generation at the last attach.
    pub generation: u64,
    /// What the proxy knew at the last attach, without looks.
    pub at_attach: Heard,
    /// The counts of this attachment that a report showed last.
    pub reported: Counts,
    /// The counts of this mixer's own looks since the last turn.
    pub own: Counts,
    /// The flush count that a START waits for.
    pub awaits: Option<u32>,
    /// How many commands are settled.
    pub settled: u64,
    /// The status word stored last, 0 if none was.
    pub status: u32,
}
