//! The room that the rounds of a session work in.
ghost use Rattle.std.specs.Prelude.{◌≡◌, ◌≤◌, IfOk, length};
ghost use Rattle.af_session.specs.Rooms.{IsNewRoom};
ghost use Rattle.af_script.specs.Bounds.{most_tracks};

use af_base::{Frame, Items, Memory};
use af_tally::Tally;
use std::alloc::Global;

/// The room of a session: for the frames of a cycle, for the bytes of four rounds of the most cycles, for the tally of the tracks, and for a count of each track.
#[derive(Drop)]
pub struct Room {
    pub buffer: Vec<Frame>,
    pub bytes: Items<u8>,
    pub tally: Tally,
    pub released: Items<u64>,
}

// So many silent frames.
fn silence(alloc: Global, frames: usize) -> Result<Vec<Frame>, Memory>
    requires { frames ≤ 1024 }
    ensures { IfOk result (λ buffer. length buffer.items ≡ frames) }
{
    let mut buffer = Vec::with_capacity(alloc, frames)?;
    buffer.resize(frames, Frame { left: 0, right: 0 })?;
    Ok(buffer)
}

impl Room {
    /// The room for so many frames of a cycle and so many tracks. Memory is its only refusal.
    pub fn make(alloc: Global, frames: usize, tracks: usize) -> Result<Self, Memory>
        requires frames { frames ≤ 1024 }
        requires tracks { tracks ≤ most_tracks }
        ensures { IfOk result (IsNewRoom frames tracks) }
    {
        let buffer = silence(alloc, frames)?;
        let bytes = Items::with_room(alloc, 256 * frames)?;
        let tally = Tally::new(alloc, tracks)?;
        let released = Items::with_room(alloc, tracks)?;
        Ok(Room {
            buffer,
            bytes,
            tally,
            released,
        })
    }
}
