//! What a cycle does with the proxies that the observer holds.
ghost use Rattle.std.specs.Prelude.{◌≡◌, ◌+◌, ◌++◌, ◌<◌, ◌≤◌, ◌^◌, true, Some, length, take};
ghost use Rattle.af_base.specs.Log.{slots};
ghost use Rattle.af_model.specs.StateQueue.{slot_of, carries};
ghost use Rattle.af_server.specs.Order.{ServerState};
ghost use Rattle.af_stateq.specs.Mutates.{at};
ghost use Rattle.af_stateq.specs.Observes.{InOrder};
ghost use Rattle.af_fast.specs.Fits.{stream_fits, NamesBlocks};
ghost use Rattle.af_fast.specs.Meets.{AreOfBlockOf, MeetsHeld};
ghost use Rattle.af_fast.specs.Slots.{PlaysSlot, LogsSlot, SameEntries};

use af_base::{FastLog, Frame, SlotEntry, Steps};
use af_cblk::{Block, FlagHand};
use af_client::Client;
use af_link::{StreamNames, meet_all};
use af_server::Server;
use af_stateq::Observer;
use std::sync::ledger::Ledger;

// The track of a slot in the state adopted.
fn track_of(observer: &Observer<Server, StreamNames>, slot: usize) -> u32
    requires slot { slot < slots }
    requires some { 0 < observer.now.past.number }
    ensures { result ≡ (slot_of observer.now.past.state slot).track }
{
    let Some(state) = observer.current() else {
        unreachable!()
    };
    state.slots[slot].track
}

/// Plays the proxy that the observer holds for a slot of the mask, on the block of its track.
fn play_held<L: Ledger>(
    observer: &mut Observer<Server, StreamNames>,
    streams: &[Block],
    slot: usize,
    place: usize,
    buffer: &mut [Frame],
    steps: &mut Steps<L>,
) -> SlotEntry
    requires slot { (slot < slots) × (carries observer.old.past.state slot ≡ true) }
    requires some { 0 < observer.old.past.number }
    requires order { InOrder stream_fits observer.old }
    requires names { NamesBlocks observer.old.past.key streams.now }
    requires buffer { (1 ≤ length buffer.old) × (length buffer.old < 2 ^ 32) }
    ensures order { InOrder stream_fits observer.new }
    ensures plays { PlaysSlot (length buffer.old) place slot observer.old observer.new buffer.new result }
    ensures steps { steps.new ≤ steps.old + length buffer.old + 7 }
{
    let track = track_of(observer, slot);
    let Some(server) = observer.item(slot as u32) else {
        unreachable!()
    };
    server.play(&streams[track as usize], place, buffer, steps)
}

/// Adds the frames that were taken to the log: the first so many of the buffer.
pub(crate) fn log_taken(log: &mut FastLog, buffer: &[Frame], count: u32)
    requires few { count ≤ length buffer.now }
    requires room { length log.old.frames + length buffer.now ≤ log.old.frame_room }
    ensures frames { log.new.frames ≡ log.old.frames ++ take count buffer.now }
    ensures log { SameEntries log.old log.new }
{
    if count > 0 {
        log.push_frames(&buffer[..count as usize]);
    }
}

/// Plays the proxy that the observer holds for a slot of the mask into this slot of an entry, and adds the frames that were taken to the log.
pub(crate) fn log_held<L: Ledger>(
    observer: &mut Observer<Server, StreamNames>,
    log: &mut FastLog,
    streams: &[Block],
    slot: usize,
    to: &mut SlotEntry,
    buffer: &mut [Frame],
    steps: &mut Steps<L>,
)
    requires slot { (slot < slots) × (carries observer.old.past.state slot ≡ true) }
    requires some { 0 < observer.old.past.number }
    requires order { InOrder stream_fits observer.old }
    requires names { NamesBlocks observer.old.past.key streams.now }
    requires buffer { (1 ≤ length buffer.old) × (length buffer.old < 2 ^ 32) }
    requires room { length log.old.frames + length buffer.old ≤ log.old.frame_room }
    ensures order { InOrder stream_fits observer.new }
    ensures logs { LogsSlot (length buffer.old) slot observer.old observer.new log.old.frames log.new.frames to.new }
    ensures log { SameEntries log.old log.new }
    ensures steps { steps.new ≤ steps.old + length buffer.old + 7 }
{
    let place = log.frames().len();
    *to = play_held(observer, streams, slot, place, buffer, steps);
    log_taken(log, buffer, to.seen.count());
}

/// The proxy that the observer holds for a slot of the mask meets its client and its hand, on the block of its track.
pub(crate) fn meet_item<L: Ledger>(
    observer: &mut Observer<Server, StreamNames>,
    streams: &[Block],
    slot: usize,
    track: u32,
    client: &mut Client,
    hand: &mut FlagHand,
    steps: &mut Steps<L>,
)
    requires slot { (slot < slots) × (carries observer.old.past.state slot ≡ true) }
    requires track { track ≡ (slot_of observer.old.past.state slot).track }
    requires order { InOrder stream_fits observer.old }
    requires names { NamesBlocks observer.old.past.key streams.now }
    requires block { (s : ServerState) → at observer.old.items slot ≡ Some s → AreOfBlockOf s client.old hand.old }
    ensures order { InOrder stream_fits observer.new }
    ensures met { (s : ServerState) × (at observer.old.items slot ≡ Some s) × MeetsHeld slot s observer.old client.old hand.old observer.new client.new hand.new }
    ensures steps { steps.new ≡ steps.old + 9 }
{
    let Some(server) = observer.item(slot as u32) else {
        unreachable!()
    };
    meet_all(client, server, hand, &streams[track as usize], steps);
}
