//! Two threads at work on the two ends of a stream, of a recording and of a static buffer.
use crate::frames::{NOTHING, number, numbered};
use af_base::{Frame, Gains};
use af_ends::{
    CaptureEnd, EndError, ListenerEnd, Lived, PlayerEnd, Recorded, SetterEnd, StreamClient,
    StreamServer, close, open_record, open_static, open_stream,
};
use std::alloc::Global;
use std::mem::drop;
use std::test::*;
use std::thread::{Threads, join, yield_now};

// How many frames a stream is to carry, and the most calls of each thread.
const FRAMES: u32 = 100_000;

const CALLS: u32 = 5_000_000;

// Writes all frames, or as many as are taken.
fn write_on(client: &mut StreamClient) {
    let mut next: u32 = 0;
    let mut frames = [NOTHING; 32];
    for _ in 0..CALLS {
        if next >= FRAMES {
            break;
        }
        number(&mut frames, next);
        match client.write(&frames) {
            Ok(0) => yield_now(),
            Ok(count) => next = next.wrapping_add(count),
            Err(_) => break,
        }
    }
}

// The same with a client that is handed back.
fn write_all(client: StreamClient) -> StreamClient {
    let mut client = client;
    write_on(&mut client);
    client
}

// The number behind these frames, if they have the numbers from this one on.
fn follow(frames: &[Frame], count: u32, first: Option<u32>) -> Option<u32> {
    let mut next = first?;
    for frame in frames.iter().take(count as usize) {
        if frame.pack() != next {
            return None;
        }
        next = next.wrapping_add(1);
    }
    Some(next)
}

// Reads until so many numbers were read, or none came so often. The next number, if each was the one that follows.
fn read_on(server: &mut StreamServer, first: Option<u32>, last: u32, calls: u32) -> Option<u32> {
    let mut next = first;
    let mut out = [NOTHING; 50];
    for _ in 0..calls {
        if next.is_none_or(|number| number >= last) {
            break;
        }
        match server.read(&mut out) {
            Ok(found) => next = follow(&out, found.frames, next),
            Err(_) => next = None,
        }
        yield_now();
    }
    next
}

// Reads all frames with a server that is handed back.
fn read_all(server: StreamServer) -> (StreamServer, Option<u32>) {
    let mut server = server;
    let next = read_on(&mut server, Some(0), FRAMES, CALLS);
    (server, next)
}

// Two threads write and read. What they hand back, with the number of frames that were read, if each was the one that follows.
fn carry<R: Threads + Sync>(
    rt: &R,
    client: StreamClient,
    server: StreamServer,
) -> (StreamClient, StreamServer, Option<u32>) {
    let (client, (server, next)) = join(
        rt,
        move || -> StreamClient { write_all(client) },
        move || -> (StreamServer, Option<u32>) { read_all(server) },
    );
    (client, server, next)
}

// How many frames a stream consumed whose ends met.
fn consumed_of(ended: Result<Lived, StreamServer>) -> Option<u64> {
    let lived = ended.ok()?;
    let consumed = lived.consumed();
    drop(lived);
    Some(consumed)
}

// Whether each frame that was written on one thread was read in its place on another, and the two ends met then.
fn all_carried<R: Threads + Sync>(rt: &R, alloc: Global) -> Result<bool, EndError> {
    let (client, server) = open_stream(alloc, 300)?;
    let (client, mut server, next) = carry(rt, client, server);
    let written = client.released();
    let next = read_on(&mut server, next, u32::MAX, 20);
    let read = next.map(u64::from);
    let consumed = consumed_of(close(client, server));
    Ok(read == Some(written) && consumed == Some(written))
}

#[test]
fn a_stream_carries_each_frame(rt: HostRuntime) {
    let carried = all_carried(&rt, rt.alloc());
    assert!(rt; carried == Ok(true));
}

// Supplies all frames, or as many as are taken.
fn supply_on(capture: &mut CaptureEnd) {
    let mut frames = [NOTHING; 50];
    for round in 0..4_000u32 {
        number(&mut frames, round.wrapping_mul(50));
        if capture.supply(&frames).is_err() {
            break;
        }
    }
}

// The same with an end that is handed back.
fn supply_all(capture: CaptureEnd) -> CaptureEnd {
    let mut capture = capture;
    supply_on(&mut capture);
    capture
}

// The number after the last, if the numbers of these frames rise.
fn risen(frames: &[Frame], count: u32, low: Option<u32>) -> Option<u32> {
    let mut next = low?;
    for frame in frames.iter().take(count as usize) {
        if frame.pack() < next {
            return None;
        }
        next = frame.pack().wrapping_add(1);
    }
    Some(next)
}

// Reads so often: the number after the last, if the numbers rise.
fn listen_on(listener: &mut ListenerEnd, low: Option<u32>, calls: u32) -> Option<u32> {
    let mut next = low;
    let mut out = [NOTHING; 100];
    for _ in 0..calls {
        match listener.read(&mut out) {
            Ok(count) => next = risen(&out, count, next),
            Err(_) => next = None,
        }
        yield_now();
    }
    next
}

// The same from the first number on, with an end that is handed back.
fn listen(listener: ListenerEnd) -> (ListenerEnd, Option<u32>) {
    let mut listener = listener;
    let next = listen_on(&mut listener, Some(0), 2_000);
    (listener, next)
}

// Two threads supply and listen. What they hand back, with the number after the last, if the numbers rise.
fn record<R: Threads + Sync>(
    rt: &R,
    capture: CaptureEnd,
    listener: ListenerEnd,
) -> (CaptureEnd, ListenerEnd, Option<u32>) {
    let (capture, (listener, next)) = join(
        rt,
        move || -> CaptureEnd { supply_all(capture) },
        move || -> (ListenerEnd, Option<u32>) { listen(listener) },
    );
    (capture, listener, next)
}

// Whether all frames were found by a recording whose ends met: read, or lost and counted.
fn has_found(ended: Result<Recorded, ListenerEnd>) -> Option<bool> {
    let recorded = ended.ok()?;
    let found = recorded.total().wrapping_add(recorded.overrun());
    let so = found == 200_000 && recorded.supplied() == found;
    drop(recorded);
    Some(so)
}

// Whether each frame that was supplied was read in its order, or lost and counted.
fn all_found<R: Threads + Sync>(rt: &R, alloc: Global) -> Result<bool, EndError> {
    let (capture, listener) = open_record(alloc, 1_000)?;
    let (capture, mut listener, next) = record(rt, capture, listener);
    let next = listen_on(&mut listener, next, 20);
    capture.close();
    Ok(next.is_some() && has_found(listener.close()) == Some(true))
}

#[test]
fn a_recording_loses_and_counts(rt: HostRuntime) {
    let found = all_found(&rt, rt.alloc());
    assert!(rt; found == Ok(true));
}

// Makes all settings, or as many as are taken.
fn set_on(setter: &mut SetterEnd) {
    for start in 0..1_000 {
        if setter.set(start, 0, 0).is_err() {
            break;
        }
        yield_now();
    }
}

// The same with an end that is handed back.
fn set_all(setter: SetterEnd) -> SetterEnd {
    let mut setter = setter;
    set_on(&mut setter);
    setter
}

// The number of the setting by which one frame is played, behind one of this number: nothing if the numbers fell, or a new one wasn't played from its start.
fn play_one(player: &mut PlayerEnd, last: u64) -> Option<u64> {
    let mut out = [NOTHING; 1];
    match player.play(Gains::clamped(0x1000_1000), &mut out) {
        Ok(told) => {
            let is_new = told.number != last;
            let is_start = u64::from(out[0].pack()) == told.number.wrapping_sub(1);
            let good = told.number >= last && told.shut.is_none() && (!is_new || is_start);
            if good { Some(told.number) } else { None }
        }
        Err(_) => None,
    }
}

// Plays until the last setting is seen, one frame a call: whether the numbers of the settings never fell, and each new one was played from its start.
fn play_on(player: &mut PlayerEnd) -> bool {
    let mut last = 0;
    for _ in 0..CALLS {
        if last == 1_000 {
            break;
        }
        match play_one(player, last) {
            Some(number) => last = number,
            None => return false,
        }
        yield_now();
    }
    true
}

// The same with an end that is handed back.
fn play_all(player: PlayerEnd) -> (PlayerEnd, bool) {
    let mut player = player;
    let good = play_on(&mut player);
    (player, good)
}

// Two threads set and play. What they hand back, with whether it was good.
fn unroll<R: Threads + Sync>(
    rt: &R,
    setter: SetterEnd,
    player: PlayerEnd,
) -> (SetterEnd, PlayerEnd, bool) {
    let (setter, (player, good)) = join(
        rt,
        move || -> SetterEnd { set_all(setter) },
        move || -> (PlayerEnd, bool) { play_all(player) },
    );
    (setter, player, good)
}

// A buffer whose frame at each start of a setting has the number of the start.
fn opened(alloc: Global) -> Result<(SetterEnd, PlayerEnd), EndError> {
    let frames = numbered(alloc, 1_000);
    open_static(alloc, &frames)
}

// Whether the player heard settings in their order, from another thread.
fn all_heard<R: Threads + Sync>(rt: &R, alloc: Global) -> Result<bool, EndError> {
    let (setter, player) = opened(alloc)?;
    let (setter, player, good) = unroll(rt, setter, player);
    setter.close();
    Ok(good && player.close().is_ok())
}

#[test]
fn a_player_hears_the_newest_setting(rt: HostRuntime) {
    let heard = all_heard(&rt, rt.alloc());
    assert!(rt; heard == Ok(true));
}
