//! All parties of a mixer on threads of their own.
use crate::mixers::{FAST, Mixer, SILENCE};
use af_base::{Cycle, DISABLED, Frame};
use af_engine::{EngineTrack, MakeError, MixerSpec};
use af_mixer_ends::{FastEnd, NormalEnd, TrackEnd};
use af_normal::Turn;
use std::alloc::Global;
use std::mem::drop;
use std::test::*;
use std::thread::{Threads, join, yield_now};

// How many frames each track is to carry, and the most calls of each thread.
const FRAMES: u32 = 400;

const CALLS: u32 = 1_000_000;

// A track that was without frames for too long was disabled: it is started again.
fn keep_on(track: &mut TrackEnd) {
    if track.status().flags & DISABLED != 0 {
        let _started = track.start();
    }
}

// Writes so many frames of this sample: how many were written.
fn write_all(track: &mut TrackEnd, sample: i16) -> u32 {
    let frames = [Frame {
        left: sample,
        right: 0,
    }; 20];
    let mut written: u32 = 0;
    for _ in 0..CALLS {
        if written >= FRAMES {
            break;
        }
        match track.write(&frames) {
            Ok(0) => yield_now(),
            Ok(count) => written = written.wrapping_add(count),
            Err(_) => break,
        }
        keep_on(track);
    }
    written
}

// Waits until a track is drained.
fn drain(track: &mut TrackEnd) {
    for _ in 0..CALLS {
        if track.status().drained {
            break;
        }
        yield_now();
    }
}

// Plays so many frames of this sample, and removes the track once it is drained: how many were written.
fn play(track: TrackEnd, sample: i16) -> u32 {
    let mut track = track;
    let _opened = track.open();
    let _started = track.start();
    let written = write_all(&mut track, sample);
    keep_on(&mut track);
    let _stopped = track.stop();
    drain(&mut track);
    let _removed = track.remove();
    drop(track);
    written
}

// Turns until the mixer has ended: whether it has.
fn turn_all(normal: &mut NormalEnd) -> bool {
    for _ in 0..CALLS {
        if normal.turn() == Turn::Ended {
            return true;
        }
        for _ in 0..20 {
            yield_now();
        }
    }
    false
}

// The same of a mixer that is let go then.
fn turn_on(normal: NormalEnd) -> bool {
    let mut normal = normal;
    let ended = turn_all(&mut normal);
    drop(normal);
    ended
}

// The sum of the left samples of some frames.
fn loudness(frames: &[Frame]) -> u64 {
    let mut heard: u64 = 0;
    for frame in frames {
        heard = heard.wrapping_add(u64::from(frame.left.unsigned_abs()));
    }
    heard
}

// Cycles until Exit: the sum of the left samples that were heard.
fn cycle_all(fast: &mut FastEnd) -> u64 {
    let mut out = [SILENCE; 8];
    let mut heard: u64 = 0;
    for _ in 0..CALLS {
        match fast.cycle(&mut out) {
            Ok(Cycle::Mixed) => heard = heard.wrapping_add(loudness(&out)),
            Ok(Cycle::Exit) => break,
            _ => {}
        }
        yield_now();
    }
    heard
}

// The same of a mixer that is let go then.
fn cycle_on(fast: FastEnd) -> u64 {
    let mut fast = fast;
    let heard = cycle_all(&mut fast);
    drop(fast);
    heard
}

// A track of a hundred frames.
const LONG: EngineTrack = EngineTrack {
    frames: 100,
    ..FAST
};

const SPEC: MixerSpec<'static> = MixerSpec {
    frames: 8,
    normal: 2,
    cycles: 50,
    tracks: &[
        LONG,
        EngineTrack {
            fast: false,
            ..LONG
        },
    ],
};

// The first two tracks are played on two threads: how many frames were written for each.
fn play_both<R: Threads + Sync>(rt: &R, tracks: Vec<TrackEnd>) -> (u32, u32) {
    let mut tracks = tracks;
    let (Some(second), Some(first)) = (tracks.pop(), tracks.pop()) else {
        return (0, 0);
    };
    join(
        rt,
        move || -> u32 { play(first, 3) },
        move || -> u32 { play(second, 5) },
    )
}

// One thread makes the turns, and another the cycles: whether the normal mixer has ended, and what was heard.
fn mix_on<R: Threads + Sync>(rt: &R, normal: NormalEnd, fast: FastEnd) -> (bool, u64) {
    join(
        rt,
        move || -> bool { turn_on(normal) },
        move || -> u64 { cycle_on(fast) },
    )
}

// All four parties on threads of their own: the frames that were written, whether the normal mixer has ended, and what was heard.
fn run_all<R: Threads + Sync>(rt: &R, mixer: Mixer) -> ((u32, u32), (bool, u64)) {
    let Mixer {
        normal,
        fast,
        tracks,
    } = mixer;
    join(
        rt,
        move || -> (u32, u32) { play_both(rt, tracks) },
        move || -> (bool, u64) { mix_on(rt, normal, fast) },
    )
}

// Whether two tracks that are played on two threads are heard whole by a third, while a fourth makes the turns.
fn all_heard<R: Threads + Sync>(rt: &R, alloc: Global) -> Result<bool, MakeError> {
    let mixer = Mixer::of(alloc, &SPEC)?;
    let ((first, second), (ended, heard)) = run_all(rt, mixer);
    let sum = u64::from(first)
        .wrapping_mul(3)
        .wrapping_add(u64::from(second).wrapping_mul(5));
    Ok(ended && heard == sum && first >= FRAMES)
}

#[test]
fn all_frames_are_heard(rt: HostRuntime) {
    let heard = all_heard(&rt, rt.alloc());
    assert!(rt; heard == Ok(true));
}
