//! The normal mixer and the fast mixer.

use crate::answers::{NO_HANDLE, counted, refused};
use crate::handle::Handle;
use crate::kept::Kept;
use crate::opened::{put, taken};
use af_base::{Cycle, Frame};
use af_ends::EndError;
use af_normal::Turn;
use std::alloc::Global;

// The number of what a turn did: 0 if it didn't mix, 1 if it mixed, 2 if the mixer has ended, or the refusal of one that has made all its turns.
fn turn_number(turn: Turn) -> i64 {
    match turn {
        Turn::Turned { mixed: false, .. } => 0,
        Turn::Turned { mixed: true, .. } => 1,
        Turn::Ended => 2,
        Turn::Spent => refused(EndError::Limit),
    }
}

/// One turn of the normal mixer.
///
/// Answers 0 if it didn't mix, 1 if it mixed, 2 if the mixer has ended. -3 if the handle is closed or of another kind. -6 (limit) if 2^55 turns were made before, and nothing is done.
#[unsafe(no_mangle)]
pub extern "C" fn zeldorgacs_normal_turn(alloc: Global, normal: &mut Handle) -> i64 {
    let Some(mut kept) = taken(alloc, normal) else {
        return NO_HANDLE;
    };
    let answer = match &mut *kept {
        Kept::Normal(end) => turn_number(end.turn()),
        _ => NO_HANDLE,
    };
    put(alloc, normal, kept);
    answer
}

/// How many turns the normal mixer has made, up to 2^63 - 1; or -3 if the handle is closed or of another kind.
#[unsafe(no_mangle)]
pub extern "C" fn zeldorgacs_normal_turns(alloc: Global, normal: &mut Handle) -> i64 {
    let Some(kept) = taken(alloc, normal) else {
        return NO_HANDLE;
    };
    let answer = match &*kept {
        Kept::Normal(end) => counted(end.turns()),
        _ => NO_HANDLE,
    };
    put(alloc, normal, kept);
    answer
}

// The number of what a cycle was: 0 if it mixed, 1 if it was idle, 2 if it was the cold one, 3 at the end.
fn cycle_number(cycle: Cycle) -> i64 {
    match cycle {
        Cycle::Mixed => 0,
        Cycle::Idle => 1,
        Cycle::Cold => 2,
        Cycle::Exit | Cycle::Spent { .. } => 3,
    }
}

/// One cycle of the fast mixer into these places, which are as many as a cycle has frames.
///
/// Answers 0 if it mixed. Else the places stay: 1 if it was idle, 2 if it was the cold one, 3 if the mixer has ended. -1 (argument) if there are not as many places as a cycle has frames. -3 if the handle is closed or of another kind. -6 (limit) if a whole log more could go beyond 2^32 - 1 cycles. A refusal changes nothing.
#[unsafe(no_mangle)]
pub extern "C" fn zeldorgacs_fast_cycle(
    alloc: Global,
    fast: &mut Handle,
    places: &mut [Frame],
) -> i64 {
    let Some(mut kept) = taken(alloc, fast) else {
        return NO_HANDLE;
    };
    let answer = match &mut *kept {
        Kept::Fast(end) => match end.cycle(places) {
            Ok(cycle) => cycle_number(cycle),
            Err(error) => refused(error),
        },
        _ => NO_HANDLE,
    };
    put(alloc, fast, kept);
    answer
}

/// The frames of a cycle; or -3 if the handle is closed or of another kind.
#[unsafe(no_mangle)]
pub extern "C" fn zeldorgacs_fast_frames(alloc: Global, fast: &mut Handle) -> i64 {
    let Some(kept) = taken(alloc, fast) else {
        return NO_HANDLE;
    };
    let answer = match &*kept {
        Kept::Fast(end) => counted(end.frames() as u64),
        _ => NO_HANDLE,
    };
    put(alloc, fast, kept);
    answer
}
