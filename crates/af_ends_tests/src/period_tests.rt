//! Periods: what clients write comes to the sound, and a mixer runs on beyond its log.
use crate::mixers::{FAST, Mixer, PLAIN, SILENCE};
use crate::trials::Trial;
use af_base::{Cycle, Frame};
use af_engine::EngineTrack;
use af_mixer_ends::TrackEnd;
use af_normal::Turn;
use std::test::*;

const FIRST: Frame = Frame { left: 1, right: -1 };

const SECOND: Frame = Frame { left: 2, right: -2 };

const THIRD: Frame = Frame { left: 3, right: -3 };

// A track is opened and started, and three frames are written for it: whether all of that was done.
fn begin(track: &mut TrackEnd) -> bool {
    track.open() == Ok(())
        && track.start() == Ok(())
        && track.write(&[FIRST, SECOND, THIRD]) == Ok(3)
}

// The same of each track.
fn begin_all(mixer: &mut Mixer) -> bool {
    let mut so = true;
    for track in mixer.tracks.iter_mut() {
        so = so && begin(track);
    }
    so
}

/// Whether the first period of a mixer has these frames.
pub(crate) fn hears(mixer: &mut Mixer, frames: &[Frame]) -> bool {
    let mut out = [SILENCE; 4];
    let begun = begin_all(mixer);
    let turned = mixer.normal.turn() != Turn::Ended;
    let cycle = mixer.fast.cycle(&mut out);
    begun && turned && cycle == Ok(Cycle::Mixed) && out.as_slice() == frames
}

// Tracks, and the first period of a mixer of them.
const PERIODS: &[(&[EngineTrack], [Frame; 4])] = &[
    (&[FAST], [FIRST, SECOND, THIRD, SILENCE]),
    (&[PLAIN], [FIRST, SECOND, THIRD, SILENCE]),
    (
        &[FAST, PLAIN],
        [
            Frame { left: 2, right: -2 },
            Frame { left: 4, right: -4 },
            Frame { left: 6, right: -6 },
            SILENCE,
        ],
    ),
];

#[test]
fn what_clients_write_is_heard(rt: HostRuntime) {
    for (number, (tracks, frames)) in PERIODS.iter().enumerate() {
        let heard = Trial::Period(*frames).with(rt.alloc(), tracks);
        assert!(rt; heard == Ok(1), "{number}");
    }
}

// A turn and a cycle: whether that mixed.
fn mixes_once(mixer: &mut Mixer) -> bool {
    let mut out = [SILENCE; 4];
    let _turn = mixer.normal.turn();
    mixer.fast.cycle(&mut out) == Ok(Cycle::Mixed)
}

/// How many of so many cycles mixed up to one that didn't, where each log of two is forgotten.
pub(crate) fn mixes(mixer: &mut Mixer, cycles: u32) -> u32 {
    let mut count: u32 = 0;
    if begin_all(mixer) {
        for _ in 0..cycles {
            if !mixes_once(mixer) {
                break;
            }
            count = count.wrapping_add(1);
        }
    }
    count
}

#[test]
fn a_mixer_runs_on(rt: HostRuntime) {
    for cycles in [1, 2, 3, 4, 5, 45] {
        let mixed = Trial::Cycles(cycles).with(rt.alloc(), &[FAST, PLAIN]);
        assert!(rt; mixed == Ok(cycles), "{cycles}");
    }
}
