//! What is refused.
use crate::mixers::{FAST, Mixer, PLAIN, SILENCE};
use crate::trials::Trial;
use af_base::{Cycle, Frame};
use af_ends::EndError;
use af_engine::{EngineTrack, MakeError, SpecError};
use af_mixer_ends::{CommandError, TrackEnd};
use std::test::*;

// Tracks of which no mixer is made, and why.
const REFUSED: &[(&[EngineTrack], SpecError)] = &[
    (&[], SpecError::Tracks),
    (&[FAST; 33], SpecError::Tracks),
    (
        &[FAST, EngineTrack { frames: 0, ..PLAIN }],
        SpecError::TrackFrames { track: 1 },
    ),
    (
        &[EngineTrack {
            scale: 0x1001,
            ..FAST
        }],
        SpecError::TrackScale { track: 0 },
    ),
];

#[test]
fn specs_that_do_not_fit_are_refused(rt: HostRuntime) {
    for (number, (tracks, error)) in REFUSED.iter().enumerate() {
        let why = Err(MakeError::Spec { error: *error });
        assert!(rt; Trial::Places.with(rt.alloc(), tracks) == why, "{number}");
    }
}

// What a cycle answers to so many places.
fn cycle_of(mixer: &mut Mixer, places: usize) -> Result<Cycle, EndError> {
    let mut out = [SILENCE; 8];
    mixer.fast.cycle(&mut out[..places.min(8)])
}

/// Whether a cycle is refused to any places but those of its frames, after which it goes on.
pub(crate) fn is_whole(mixer: &mut Mixer) -> bool {
    let mut so = mixer.fast.frames() == 4;
    for places in [0, 1, 3, 5, 8] {
        so = so && cycle_of(mixer, places) == Err(EndError::Argument);
    }
    so && cycle_of(mixer, 4) == Ok(Cycle::Idle)
}

#[test]
fn a_cycle_has_its_frames(rt: HostRuntime) {
    assert!(rt; Trial::Places.with(rt.alloc(), &[FAST]) == Ok(1));
}

// Whether 64 starts are sent, and one more is refused.
fn are_sent(mixer: &mut Mixer) -> bool {
    let Some(track) = mixer.tracks.first_mut() else {
        return false;
    };
    for _ in 0..64 {
        if track.start().is_err() {
            return false;
        }
    }
    track.start() == Err(CommandError::Full)
}

/// Whether 64 commands have room, and once more after a turn.
pub(crate) fn has_room(mixer: &mut Mixer) -> bool {
    let first = are_sent(mixer);
    let _turn = mixer.normal.turn();
    first && are_sent(mixer)
}

#[test]
fn sixty_four_commands_have_room(rt: HostRuntime) {
    assert!(rt; Trial::Commands.with(rt.alloc(), &[FAST]) == Ok(1));
}

// Whether gains above unity are refused.
fn gains_have_bounds(track: &mut TrackEnd) -> bool {
    let refused = Err(EndError::Argument);
    track.set_gains(0x1000, 0) == Ok(())
        && track.set_gains(0x1001, 0) == refused
        && track.set_gains(0, 0xffff) == refused
}

// Whether a full block takes no frame.
fn frames_have_bounds(track: &mut TrackEnd) -> bool {
    let frames = [Frame { left: 7, right: 7 }; 9];
    let mut so = track.write(&[]) == Ok(0) && track.write(&frames) == Ok(8);
    so = so && track.write(&frames[..1]) == Ok(0);
    so && track.flush() == Ok(())
}

/// Whether gains above unity are refused, and a full block takes no frame.
pub(crate) fn has_bounds(mixer: &mut Mixer) -> bool {
    match mixer.tracks.first_mut() {
        Some(track) => gains_have_bounds(track) && frames_have_bounds(track),
        None => false,
    }
}

#[test]
fn gains_and_frames_have_bounds(rt: HostRuntime) {
    assert!(rt; Trial::Bounds.with(rt.alloc(), &[FAST]) == Ok(1));
}
