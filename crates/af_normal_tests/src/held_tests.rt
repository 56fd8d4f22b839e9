//! What the tests have the fast mixer do with a proxy that it holds, and what its state has.
ghost use Rattle.std.specs.Prelude.{◌≡◌, ◌<◌, ◌≤◌, ◌^◌, true, length, IfSome};
ghost use Rattle.af_base.specs.Log.{slots};
ghost use Rattle.af_model.specs.StateQueue.{slot_of, carries};
ghost use Rattle.af_stateq.specs.Observes.{InOrder};
ghost use Rattle.af_normal_tests.specs.Testing.{NamesBlocks};
ghost use Rattle.af_normal.specs.Turning.{stream_fits};

use crate::tests::{NO_FRAME, are_both};
use af_base::{Command, Frame, Seen, Steps};
use af_cblk::Block;
use af_link::{Links, StreamNames};
use af_model::carries_item;
use af_server::Server;
use af_stateq::Observer;
use std::sync::ledger::Ledger;

// Plays the proxy that the observer holds for a slot that its state carries, on the block of its track.
fn play_held<L: Ledger>(
    observer: &mut Observer<Server, StreamNames>,
    streams: &[Block],
    slot: usize,
    track: u32,
    buffer: &mut [Frame],
    steps: &mut Steps<L>,
) -> Seen
    requires slot { (slot < slots) × (carries observer.old.past.state slot ≡ true) }
    requires track { track ≡ (slot_of observer.old.past.state slot).track }
    requires order { InOrder stream_fits observer.old }
    requires names { NamesBlocks observer.old.past.key streams.now }
    requires buffer { (1 ≤ length buffer.old) × (length buffer.old < 2 ^ 32) }
    ensures order { InOrder stream_fits observer.new }
    ensures same { observer.new.past ≡ observer.old.past }
{
    let Some(server) = observer.item(slot as u32) else {
        unreachable!()
    };
    server.play(&streams[track as usize], 0, buffer, steps).seen
}

// The track of the slot that is played, if the state carries it.
fn track_held(observer: &Observer<Server, StreamNames>) -> Option<u32>
    ensures { IfSome result (λ track. (carries observer.now.past.state 1 ≡ true) × (track ≡ (slot_of observer.now.past.state 1).track)) }
{
    let state = observer.current()?;
    if !carries_item(state, 1) {
        return None;
    }
    Some(state.slots[1].track)
}

/// The fast mixer plays slot 1 for so many frames, from one to four: whether it sees this, and takes the frames of these samples.
pub(crate) fn plays_slot<L: Ledger>(
    observer: &mut Observer<Server, StreamNames>,
    links: &Links<'_>,
    count: usize,
    seen: Seen,
    samples: &[i16; 4],
    steps: &mut Steps<L>,
) -> bool
    requires order { InOrder stream_fits observer.old }
    requires names { NamesBlocks observer.old.past.key links.now.streams.now }
    ensures order { InOrder stream_fits observer.new }
    ensures same { observer.new.past ≡ observer.old.past }
{
    let Some(track) = track_held(observer) else {
        return false;
    };
    let mut frames = [NO_FRAME; 4];
    let buffer = &mut frames[..count.max(1).min(4)];
    let found = play_held(observer, links.streams, 1, track, buffer, steps);
    found == seen && are_both(&frames, samples)
}

/// Whether the fast mixer is to do this, and was to rest so often.
pub(crate) fn is_told(
    observer: &Observer<Server, StreamNames>,
    command: Command,
    cold: u64,
) -> bool {
    match observer.current() {
        Some(state) => state.command == command && state.cold_gen == cold,
        None => false,
    }
}
