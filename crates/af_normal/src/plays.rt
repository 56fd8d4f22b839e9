//! What a turn does with the tracks that have no slot: each is looked at for one buffer, and what it shows is taken.
ghost use Rattle.std.specs.Prelude.{◌≡◌, ◌+◌, ◌<◌, ◌≤◌, ◌^◌, [], length, map, is_some, All, MatchOption};
ghost use Rattle.af_base.specs.Turn.{take_seen};
ghost use Rattle.af_server.specs.Order.{IsServerOf};
ghost use Rattle.af_life.specs.Kept.{track_at};
ghost use Rattle.af_life.specs.Small.{AreUpTo};
ghost use Rattle.af_normal.specs.Mixing.{stream_at, TakesOnce, MixesTrack, MixesTo};
ghost use Rattle.af_normal.specs.AllMixed.{AreHome, AreServersOf, HasTakes};

use af_base::{Frame, FrameList, NormalTake, NormalTakes, Steps};
use af_cblk::Block;
use af_life::TrackKept;
use af_link::Links;
use af_server::Server;
use std::sync::ledger::Ledger;

/// Keeps some frames in place of those that a list had.
fn keep_frames(frames: &[Frame], list: &mut FrameList)
    requires room { length frames.now ≤ list.old.room }
    ensures { list.new ≡ record list.old { items = frames.now } }
{
    list.clear();
    for frame in frames {
        list.push(*frame);
    }
}

/// Takes once of a track for a buffer, with the proxy of its stream.
///
/// `buffer` is scratch room of a normal buffer's length. The take keeps its room.
pub(crate) fn mix_track<L: Ledger>(
    server: &mut Server,
    block: &Block,
    track: u32,
    buffer: &mut [Frame],
    take: &mut NormalTake,
    steps: &mut Steps<L>,
)
    requires ready { IsServerOf block.now server.old }
    requires buffer { (1 ≤ length buffer.old) × (length buffer.old < 2 ^ 32) }
    requires room { length buffer.old ≤ take.old.frames.room }
    ensures ready { IsServerOf block.now server.new }
    ensures takes { TakesOnce (length buffer.old) track server.old (take_seen take.new) server.new }
    ensures room { take.new.frames.room ≡ take.old.frames.room }
{
    let slot = server.play(block, 0, buffer, steps);
    take.track = track;
    take.slot = slot;
    keep_frames(&buffer[..slot.seen.count() as usize], &mut take.frames);
}

/// Mixes a track if it is due, and else passes it over.
fn mix_due<L: Ledger>(
    block: &Block,
    i: usize,
    tracks: &mut [TrackKept],
    streams: &mut [Option<Server>],
    mixes: &mut NormalTakes,
    spare: &mut NormalTakes,
    buffer: &mut [Frame],
    steps: &mut Steps<L>,
)
    requires track { (i < length tracks.old) × (length tracks.old ≤ 32) }
    requires streams { length streams.old ≡ length tracks.old }
    requires home { AreHome tracks.old streams.old }
    requires ready { MatchOption (stream_at streams.old i) (Unit {0}) (IsServerOf block.now) }
    requires few { AreUpTo (2 ^ 31) (track_at tracks.old i).own }
    requires takes { HasTakes (length buffer.old) (length tracks.old) mixes.old spare.old }
    requires spare { length mixes.old.items ≤ i }
    requires buffer { (1 ≤ length buffer.old) × (length buffer.old < 2 ^ 32) }
    ensures mixes { MixesTrack (length buffer.old) i (record { tracks = tracks.old; streams = streams.old; takes = map take_seen mixes.old.items }) (record { tracks = tracks.new; streams = streams.new; takes = map take_seen mixes.new.items }) }
    ensures ready { MatchOption (stream_at streams.new i) (Unit {0}) (IsServerOf block.now) }
    ensures takes { HasTakes (length buffer.old) (length tracks.old) mixes.new spare.new }
    ensures spare { length mixes.new.items ≤ i + 1 }
{
    if !tracks[i].is_mixed_here() {
        return;
    }
    let Some(server) = &mut streams[i] else {
        unreachable!()
    };
    let Some(mut take) = spare.pop() else {
        unreachable!()
    };
    mix_track(server, block, i as u32, buffer, &mut take, steps);
    tracks[i].own = tracks[i].own.counted(buffer.len() as u32, take.slot.seen);
    mixes.push(take);
}

/// Mixes each track that has no slot and is to be heard, in order of tracks.
///
/// The takes come from `spare`. It takes no memory.
pub(crate) fn mix_all<L: Ledger>(
    links: &Links<'_>,
    tracks: &mut [TrackKept],
    streams: &mut [Option<Server>],
    mixes: &mut NormalTakes,
    spare: &mut NormalTakes,
    buffer: &mut [Frame],
    steps: &mut Steps<L>,
)
    requires tracks { length tracks.old ≤ 32 }
    requires streams { length streams.old ≡ length tracks.old }
    requires blocks { length tracks.old ≤ length links.now.streams.now }
    requires home { AreHome tracks.old streams.old }
    requires ready { AreServersOf links.now.streams.now streams.old }
    requires few { All (λ track. AreUpTo (2 ^ 31) track.own) tracks.old }
    requires takes { HasTakes (length buffer.old) (length tracks.old) mixes.old spare.old }
    requires none { mixes.old.items ≡ [] }
    requires buffer { (1 ≤ length buffer.old) × (length buffer.old < 2 ^ 32) }
    ensures mixes { MixesTo (length buffer.old) (length tracks.old) (record { tracks = tracks.old; streams = streams.old; takes = [] }) (record { tracks = tracks.new; streams = streams.new; takes = map take_seen mixes.new.items }) }
    ensures there { map is_some streams.new ≡ map is_some streams.old }
    ensures ready { AreServersOf links.now.streams.now streams.new }
    ensures takes { HasTakes (length buffer.old) (length tracks.old) mixes.new spare.new }
{
    for i in 0..tracks.len() {
        mix_due(
            &links.streams[i],
            i,
            tracks,
            streams,
            mixes,
            spare,
            buffer,
            steps,
        );
    }
}
