//! How a server's look answers, by the words that it saw and by what is kept of the server.
ghost use Rattle.std.specs.Prelude.{◌≡◌, ◌≢◌, nat_lt};
ghost use Rattle.af_model.specs.Point.{start};
ghost use Rattle.af_model.specs.Room.{ahead};
ghost use Rattle.af_model.specs.ServerCalls.{dropped_by, flushes_by, is_noticed, look_at, past_front};

use crate::front::flush_position;
use af_base::Seen;
use af_model::{Shape, TrackPoint};

// Both gains at 1.0.
const UNITY_GAINS: u32 = 0x1000_1000;

/// How far a word lies past a position's.
pub fn ahead(from: u32, to: u32) -> u32
    ensures { result ≡ ahead from to }
{
    to.wrapping_sub(from)
}

/// The number of flushes that a flush word tells of.
pub fn flushes_by(wrap: u32, word: u32) -> u32
    ensures { result ≡ flushes_by wrap word }
{
    if wrap == 0 {
        return word;
    }
    word / wrap
}

/// Whether front and rear lie further apart than the block has frames.
pub fn is_outside(shape: Shape, front: u32, rear: u32) -> bool
    ensures { result ≡ nat_lt shape.frames (ahead front rear) }
{
    ahead(front, rear) > shape.frames
}

/// Whether a look notices a flush that is new.
pub fn is_noticed(shape: Shape, new: bool, rear: u32, front: u32) -> bool
    ensures { result ≡ is_noticed shape new rear front }
{
    new && (shape.wrap == 0 || !is_outside(shape, front, rear))
}

// How far a word lies past a front, or 0 if it lies before the front.
fn past_front(front: u32, to: u32) -> u32
    ensures { result ≡ past_front front to }
{
    let far = ahead(front, to);
    if far < 0x8000_0000 { far } else { 0 }
}

// How many frames a new flush drops.
fn dropped_by(wrap: u32, flush: u32, rear: u32, front: u32) -> u32
    ensures { result ≡ dropped_by wrap flush rear front }
{
    if wrap == 0 {
        return ahead(front, rear);
    }
    past_front(front, flush_position(wrap, flush, rear))
}

/// What a look for `asked` frames shows, by the three words seen and the flush word kept before.
pub fn look_at(shape: Shape, kept: u32, asked: u32, flush: u32, rear: u32, front: u32) -> Seen
    ensures { result ≡ look_at shape kept asked flush rear front }
{
    if is_noticed(shape, flush != kept, rear, front) {
        return Seen::Flushed {
            dropped: dropped_by(shape.wrap, flush, rear, front),
        };
    }
    if is_outside(shape, front, rear) {
        return Seen::Shut { front, rear };
    }
    if rear == front {
        return Seen::Empty;
    }
    Seen::Frames {
        count: asked.min(ahead(front, rear)),
    }
}

/// Where a block stands before any event.
pub fn start(shape: Shape) -> TrackPoint
    ensures { result ≡ start shape }
{
    let base = u64::from(shape.base);
    TrackPoint {
        released: base,
        consumed: base,
        flushes: 0,
        flush_seen: 0,
        rear_seen: base,
        gains: UNITY_GAINS,
        flags: 0,
        status: 0,
        underruns: 0,
        flush_at: 0,
        drop_to: 0,
        wrap: shape.wrap,
    }
}
