//! What a server's look at a control block showed.

/// What a look showed (AOSP's ServerProxy::obtainBuffer, with an answer of its own for a flush that it noticed).
#[derive(Clone, Copy, Debug, PartialEq, Eq)]
pub enum Seen {
    /// There was no look.
    Absent,
    /// So many frames may be taken, at least one.
    Frames { count: u32 },
    /// No frame is there.
    Empty,
    /// A new flush was noticed: so many frames were discarded.
    Flushed { dropped: u32 },
    /// Front and rear lie further apart than the block has frames: the block is shut for good.
    Shut { front: u32, rear: u32 },
}

impl Seen {
    ghost use Rattle.std.specs.Prelude.{◌≡◌};
    ghost use Rattle.af_base.specs.Log.{count_seen};

    /// How many frames the look showed, all of which may be taken: 0 unless it showed some.
    pub fn count(self) -> u32
        ensures { result ≡ count_seen self }
    {
        match self {
            Seen::Frames { count } => count,
            _ => 0,
        }
    }
}
