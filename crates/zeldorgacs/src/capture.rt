//! The end of a recording that supplies frames.

use crate::answers::{NO_HANDLE, counted, told};
use crate::frames::first;
use crate::handle::Handle;
use crate::kept::Kept;
use crate::opened::{put, taken};
use af_base::Frame;
use af_ends::{CaptureEnd, EndError};
use std::alloc::Global;

// Supplies the first of these frames, at most 1024, and answers how many were put.
fn supply(end: &mut CaptureEnd, frames: &[Frame]) -> Result<u32, EndError> {
    let supplied = end.supply(first(frames))?;
    Ok(supplied.put)
}

/// Supplies the first of these frames, at most 1024, and loses and counts what finds no room.
///
/// Answers how many frames were put. -3 if the handle is closed or of another kind. -6 (limit) if more than 2^62 frames would be supplied in all. A refusal changes nothing.
#[unsafe(no_mangle)]
pub extern "C" fn zeldorgacs_capture_supply(
    alloc: Global,
    capture: &mut Handle,
    frames: &[Frame],
) -> i64 {
    let Some(mut kept) = taken(alloc, capture) else {
        return NO_HANDLE;
    };
    let answer = match &mut *kept {
        Kept::Capture(end) => told(supply(end, frames)),
        _ => NO_HANDLE,
    };
    put(alloc, capture, kept);
    answer
}

/// How many frames were supplied; or -3 if the handle is closed or of another kind.
#[unsafe(no_mangle)]
pub extern "C" fn zeldorgacs_capture_supplied(alloc: Global, capture: &mut Handle) -> i64 {
    let Some(mut kept) = taken(alloc, capture) else {
        return NO_HANDLE;
    };
    let answer = match &mut *kept {
        Kept::Capture(end) => counted(end.supplied()),
        _ => NO_HANDLE,
    };
    put(alloc, capture, kept);
    answer
}

/// How many of the frames supplied were lost; or -3 if the handle is closed or of another kind.
#[unsafe(no_mangle)]
pub extern "C" fn zeldorgacs_capture_overrun(alloc: Global, capture: &mut Handle) -> i64 {
    let Some(mut kept) = taken(alloc, capture) else {
        return NO_HANDLE;
    };
    let answer = match &mut *kept {
        Kept::Capture(end) => counted(end.overrun()),
        _ => NO_HANDLE,
    };
    put(alloc, capture, kept);
    answer
}
