//! What a cycle does with the pipe, which is slot 0.
ghost use Rattle.std.specs.Prelude.{◌≡◌, ◌+◌, ◌<◌, ◌≤◌, ◌^◌, length};
ghost use Rattle.af_model.specs.Cycles.{shown};
ghost use Rattle.af_link.specs.PipeEnds.{out_made};
ghost use Rattle.af_fast.specs.Slots.{PlaysPipe};

use af_base::{Frame, Seen, SlotEntry, Steps};
use af_cblk::Block;
use af_link::PipeOut;
use af_server::place_of;
use std::sync::ledger::Ledger;

/// A gain of 1 on both sides.
const UNITY: u32 = 0x1000_1000;

// What a slot shows of so many frames.
fn shown(count: u32) -> Seen
    ensures { result ≡ shown count }
{
    if count == 0 {
        Seen::Empty
    } else {
        Seen::Frames { count }
    }
}

/// Takes what the pipe shows, but no more frames than the buffer has room for, to the front of the buffer.
///
/// `place` is where the frames will stand in the log.
pub(crate) fn play_pipe<L: Ledger>(
    pipe: &mut PipeOut,
    block: &Block,
    place: usize,
    buffer: &mut [Frame],
    steps: &mut Steps<L>,
) -> SlotEntry
    requires made { out_made pipe.old ≡ block.now }
    requires few { length buffer.old < 2 ^ 32 }
    ensures made { out_made pipe.new ≡ block.now }
    ensures plays { PlaysPipe (length buffer.old) place pipe.old pipe.new buffer.new result }
    ensures steps { steps.new ≤ steps.old + length buffer.old + 3 }
{
    let count = pipe.look(block, buffer.len() as u32, steps);
    let rear = pipe.rear();
    if count > 0 {
        pipe.take(block, &mut buffer[..count as usize], steps);
    }
    let seen = shown(count);
    SlotEntry {
        gains: UNITY,
        flush: 0,
        rear,
        seen,
        first: place_of(place, seen),
    }
}
