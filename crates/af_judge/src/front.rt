//! Which front a look saw: its answer tells it, but for answers that leave it open.
ghost use Rattle.std.specs.Prelude.{◌≡◌, ◌≢◌};
ghost use Rattle.af_runs.specs.Fronts.{behind, leaves_open, flushed_front, front_by_answer};
ghost use Rattle.af_model.specs.ServerCalls.{flush_position};

use af_base::{Seen, SlotEntry};
use af_model::Shape;

// The word so many before a position.
fn behind(position: u32, count: u32) -> u32
    ensures { result ≡ behind position count }
{
    position.wrapping_sub(count)
}

/// The word of the position of a flush, by its flush word and the rear seen after it.
pub fn flush_position(wrap: u32, flush: u32, rear: u32) -> u32
    requires { wrap ≢ 0 }
    ensures { result ≡ flush_position wrap flush rear }
{
    behind(rear, rear.wrapping_sub(flush) % wrap)
}

/// Whether the answer leaves the front open.
pub fn leaves_open(shape: Shape, asked: u32, seen: Seen) -> bool
    ensures { result ≡ leaves_open shape asked seen }
{
    match seen {
        Seen::Frames { count } => count == asked,
        Seen::Flushed { dropped } => shape.wrap != 0 && dropped == 0,
        _ => false,
    }
}

// The front by which a flush dropped so many frames.
fn flushed_front(wrap: u32, flush: u32, rear: u32, dropped: u32) -> u32
    ensures { result ≡ flushed_front wrap flush rear dropped }
{
    if wrap == 0 {
        return behind(rear, dropped);
    }
    if dropped == 0 {
        return rear;
    }
    behind(flush_position(wrap, flush, rear), dropped)
}

/// A front by which the look answers so.
pub fn front_by_answer(shape: Shape, slot: &SlotEntry) -> u32
    ensures { result ≡ front_by_answer shape slot.now }
{
    match slot.seen {
        Seen::Frames { count } => behind(slot.rear, count),
        Seen::Flushed { dropped } => flushed_front(shape.wrap, slot.flush, slot.rear, dropped),
        Seen::Shut { front, .. } => front,
        Seen::Absent | Seen::Empty => slot.rear,
    }
}
