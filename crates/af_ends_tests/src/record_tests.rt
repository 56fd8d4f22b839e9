//! The calls of a recording's two ends.
use crate::frames::numbered;
use af_ends::{CaptureEnd, EndError, ListenerEnd, open_record};
use af_record::Supplied;
use std::alloc::Global;
use std::mem::drop;
use std::test::*;

// How many of so many frames are put, and how many lost.
fn supplied(alloc: Global, capture: &mut CaptureEnd, count: u32) -> Result<Supplied, EndError> {
    let frames = numbered(alloc, count);
    capture.supply(&frames)
}

// How many frames a read to so many places takes.
fn read(alloc: Global, listener: &mut ListenerEnd, places: u32) -> Result<u32, EndError> {
    let mut out = numbered(alloc, places);
    listener.read(out.as_mut_slice())
}

// A recording's frames, a supply's, how many of these are put and how many lost, or that they are refused, the places of a read and how many it takes.
type Case = (u32, u32, Result<(u32, u32), EndError>, u32, u32);

const CASES: &[Case] = &[
    (4, 0, Ok((0, 0)), 4, 0),
    (4, 3, Ok((3, 0)), 0, 0),
    (4, 3, Ok((3, 0)), 2, 2),
    (4, 6, Ok((4, 2)), 9, 4),
    (8_192, 1_024, Ok((1_024, 0)), 1_025, 1_024),
];

// A supply of more than 1,024 frames leaves nothing to be read.
const TOO_MANY: Case = (8_192, 1_025, Err(EndError::Argument), 1, 0);

// What a supply of so many frames and a read to so many places answer.
fn asked(
    alloc: Global,
    capture: &mut CaptureEnd,
    listener: &mut ListenerEnd,
    count: u32,
    places: u32,
) -> (Result<(u32, u32), EndError>, Result<u32, EndError>) {
    let put = match supplied(alloc, capture, count) {
        Ok(Supplied { put, lost }) => Ok((put, lost)),
        Err(error) => Err(error),
    };
    (put, read(alloc, listener, places))
}

// Whether a supply and a read answer so on a new recording.
fn answers(alloc: Global, case: &Case) -> Result<bool, EndError> {
    let (size, count, wanted, places, taken) = *case;
    let (mut capture, mut listener) = open_record(alloc, size)?;
    let (put, read) = asked(alloc, &mut capture, &mut listener, count, places);
    drop(capture);
    drop(listener);
    Ok(put == wanted && read == Ok(taken))
}

#[test]
fn calls_answer(rt: HostRuntime) {
    for (number, case) in CASES.iter().enumerate() {
        assert!(rt; answers(rt.alloc(), case) == Ok(true), "{number}");
    }
}

#[test]
fn too_many_frames_are_refused(rt: HostRuntime) {
    assert!(rt; answers(rt.alloc(), &TOO_MANY) == Ok(true));
}

// What an opening of so many frames answers.
fn opens(alloc: Global, frames: u32) -> Result<(), EndError> {
    let ends = open_record(alloc, frames)?;
    drop(ends);
    Ok(())
}

#[test]
fn sizes_are_refused(rt: HostRuntime) {
    for frames in [0, 8_193, u32::MAX] {
        assert!(rt;
            opens(rt.alloc(), frames) == Err(EndError::Argument),
            "{frames}"
        );
    }
    for frames in [1, 8_192] {
        assert!(rt; opens(rt.alloc(), frames) == Ok(()), "{frames}");
    }
}
