//! A life from its opening to its end.
use crate::mixers::{FAST, Mixer, PLAIN, SILENCE};
use crate::trials::Trial;
use af_base::{Cycle, Frame};
use af_mixer_ends::{CommandError, TrackEnd};
use af_normal::Turn;
use std::test::*;

// A command of a track.
#[derive(Clone, Copy)]
pub(crate) enum Ask {
    Nothing,
    Open,
    Start,
    Pause,
    Stop,
    Flush,
    Remove,
}

fn give(track: &mut TrackEnd, asked: Ask) -> Result<(), CommandError> {
    match asked {
        Ask::Nothing => Ok(()),
        Ask::Open => track.open(),
        Ask::Start => track.start(),
        Ask::Pause => track.pause(),
        Ask::Stop => track.stop(),
        Ask::Flush => track.flush(),
        Ask::Remove => track.remove(),
    }
}

// A step of a life: what is asked, the samples that are heard in six periods then, as digits in base 100, the state that is told, and whether the track is drained.
type Step = (Ask, i64, u32, bool);

// A life. Before each step two frames with the next numbers are written.
pub(crate) const LIFE: &[Step] = &[
    (Ask::Nothing, 0, 0, false),
    (Ask::Open, 0, 1, false),
    (Ask::Start, 01_02_03_04_05_06, 2, false),
    (Ask::Pause, 07_08, 4, false),
    (Ask::Nothing, 0, 4, false),
    (Ask::Start, 09_10_11_12, 2, false),
    (Ask::Stop, 13_14, 8, true),
    (Ask::Start, 15_16, 2, false),
    (Ask::Stop, 17_18, 8, true),
    (Ask::Flush, 0, 9, true),
    (Ask::Start, 21_22, 2, false),
];

// The samples but silence that are heard in a period, behind others, as digits in base 100.
fn hear_one(mixer: &mut Mixer, before: i64) -> i64 {
    let mut heard = before;
    let mut out = [SILENCE; 4];
    let _turn = mixer.normal.turn();
    let _cycle = mixer.fast.cycle(&mut out);
    for frame in out {
        if frame.left != 0 {
            heard = heard.wrapping_mul(100).wrapping_add(i64::from(frame.left));
        }
    }
    heard
}

// The same of six periods.
fn hear(mixer: &mut Mixer) -> i64 {
    let mut heard: i64 = 0;
    for _ in 0..6 {
        heard = hear_one(mixer, heard);
    }
    heard
}

fn frame_of(number: i16) -> Frame {
    Frame {
        left: number,
        right: 0,
    }
}

// The frames of two numbers are written to the first track, and a command is given to it.
fn write_and_give(mixer: &mut Mixer, first: i16, asked: Ask) {
    let frames = [frame_of(first), frame_of(first.wrapping_add(1))];
    if let Some(track) = mixer.tracks.first_mut() {
        let _count = track.write(&frames);
        let _sent = give(track, asked);
    }
}

// Whether the first track is told this of its life.
fn is_told(mixer: &mut Mixer, life: u32, drained: bool) -> bool {
    match mixer.tracks.first_mut() {
        Some(track) => {
            let status = track.status();
            status.life == life && status.drained == drained
        }
        None => false,
    }
}

/// How many of these steps of a life of the first track come to what they say, up to one that doesn't.
pub(crate) fn lives(mixer: &mut Mixer, steps: &[Step]) -> u32 {
    let mut count: u32 = 0;
    let mut first: i16 = 1;
    for (asked, wanted, life, drained) in steps {
        write_and_give(mixer, first, *asked);
        let heard = hear(mixer);
        if heard != *wanted || !is_told(mixer, *life, *drained) {
            break;
        }
        first = first.wrapping_add(2);
        count = count.wrapping_add(1);
    }
    count
}

#[test]
fn a_track_lives(rt: HostRuntime) {
    assert_eq!(rt; Trial::Life.with(rt.alloc(), &[FAST]).unwrap_or(0), 11);
    assert_eq!(rt; Trial::Life.with(rt.alloc(), &[PLAIN]).unwrap_or(0), 11);
}

// A track is opened and removed.
fn open_and_remove(track: &mut TrackEnd) {
    let _opened = track.open();
    let _removed = track.remove();
}

// What a turn and a cycle find: nothing while the mixer goes on, and then whether both have ended.
fn found_end(mixer: &mut Mixer) -> Option<bool> {
    let mut out = [SILENCE; 4];
    let turn = mixer.normal.turn();
    let cycle = mixer.fast.cycle(&mut out);
    if turn != Turn::Ended {
        return None;
    }
    Some(mixer.normal.has_ended() && cycle == Ok(Cycle::Exit))
}

/// Whether the mixers end once all tracks are removed.
pub(crate) fn ends(mixer: &mut Mixer) -> bool {
    for track in mixer.tracks.iter_mut() {
        open_and_remove(track);
    }
    for _ in 0..10 {
        if let Some(so) = found_end(mixer) {
            return so;
        }
    }
    false
}

#[test]
fn a_mixer_ends(rt: HostRuntime) {
    assert!(rt; Trial::End.with(rt.alloc(), &[FAST, PLAIN]) == Ok(1));
}
