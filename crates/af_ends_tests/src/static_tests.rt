//! The calls of a static buffer's two ends.
use crate::frames::{NOTHING, numbered};
use af_base::Gains;
use af_ends::{EndError, PlayerEnd, SetterEnd, open_static};
use af_static::Unrolled;
use std::alloc::Global;
use std::mem::drop;
use std::test::*;

// The two ends of a buffer of the frames from 0 on.
fn opened(alloc: Global, size: u32) -> Result<(SetterEnd, PlayerEnd), EndError> {
    let frames = numbered(alloc, size);
    open_static(alloc, &frames)
}

// Whether a call to two places at unity plays these words, of which so many frames are the buffer's, by the setting of this number.
fn plays(player: &mut PlayerEnd, words: &[u32; 2], filled: u32, number: u64) -> bool {
    let mut out = [NOTHING; 2];
    let told = player.play(Gains::clamped(0x1000_1000), &mut out);
    let is_told = told
        == Ok(Unrolled {
            number,
            filled,
            shut: None,
        });
    is_told && out[0].pack() == words[0] && out[1].pack() == words[1]
}

// Two calls, with a setting between them.
fn two_calls(setter: &mut SetterEnd, player: &mut PlayerEnd) -> bool {
    plays(player, &[0, 1], 2, 0) && setter.set(5, 0, 0) == Ok(1) && plays(player, &[5, 0], 1, 1)
}

// Whether a call tells that this setting shut the player.
fn is_shut(player: &mut PlayerEnd, by: (u32, u32, u32)) -> bool {
    let mut out = [NOTHING; 2];
    match player.play(Gains::clamped(0), &mut out) {
        Ok(told) => told.shut == Some(by),
        Err(_) => false,
    }
}

// An invalid setting, a call, a valid one, and a call.
fn shuts(setter: &mut SetterEnd, player: &mut PlayerEnd) -> bool {
    setter.set(9, 0, 0).is_ok()
        && is_shut(player, (9, 0, 0))
        && setter.set(0, 0, 0).is_ok()
        && is_shut(player, (9, 0, 0))
}

// How many frames a call to so many places takes.
fn filled(alloc: Global, player: &mut PlayerEnd, places: u32) -> Result<u32, EndError> {
    let mut out = numbered(alloc, places);
    match player.play(Gains::clamped(0), out.as_mut_slice()) {
        Ok(told) => Ok(told.filled),
        Err(error) => Err(error),
    }
}

// What is tried with a new buffer.
#[derive(Clone, Copy)]
enum Trial {
    TwoCalls,
    Shut,
    // A call to so many places, and how many frames it takes.
    Places(u32, Result<u32, EndError>),
}

impl Trial {
    // Whether it comes out with these ends.
    fn holds(self, alloc: Global, setter: &mut SetterEnd, player: &mut PlayerEnd) -> bool {
        match self {
            Trial::TwoCalls => two_calls(setter, player),
            Trial::Shut => shuts(setter, player),
            Trial::Places(places, taken) => filled(alloc, player, places) == taken,
        }
    }

    // Whether it comes out with a new buffer of so many frames, or why none was made.
    fn tried(self, alloc: Global, size: u32) -> Result<bool, EndError> {
        let (mut setter, mut player) = opened(alloc, size)?;
        let so = self.holds(alloc, &mut setter, &mut player);
        drop(setter);
        drop(player);
        Ok(so)
    }

    // Whether it comes out so, where a buffer that isn't made takes no frames.
    fn with(self, alloc: Global, size: u32) -> bool {
        match (self, self.tried(alloc, size)) {
            (_, Ok(so)) => so,
            (Trial::Places(_, taken), Err(error)) => taken == Err(error),
            _ => false,
        }
    }
}

#[test]
fn a_setting_is_played(rt: HostRuntime) {
    assert!(rt; Trial::TwoCalls.with(rt.alloc(), 6));
}

#[test]
fn an_invalid_setting_shuts_the_player(rt: HostRuntime) {
    assert!(rt; Trial::Shut.with(rt.alloc(), 3));
}

// The frames of a buffer, the places of a call, and how many frames it takes.
const PLACES: &[(u32, u32, Result<u32, EndError>)] = &[
    (8_192, 0, Err(EndError::Argument)),
    (8_192, 1_025, Err(EndError::Argument)),
    (8_193, 1, Err(EndError::Argument)),
    (0, 1, Err(EndError::Argument)),
    (8_192, 1_024, Ok(1_024)),
    (1, 2, Ok(1)),
];

#[test]
fn places_and_sizes_are_refused(rt: HostRuntime) {
    for (number, (size, places, taken)) in PLACES.iter().enumerate() {
        let trial = Trial::Places(*places, *taken);
        assert!(rt; trial.with(rt.alloc(), *size), "{number}");
    }
}
