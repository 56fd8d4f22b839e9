//! The end of a recording that reads.

use crate::answers::{NO_HANDLE, counted, told};
use crate::frames::first_places;
use crate::handle::Handle;
use crate::kept::Kept;
use crate::opened::{put, taken};
use af_base::Frame;
use std::alloc::Global;

/// Reads as many frames as are there and have a place, at most 1024. The places behind them stay.
///
/// Answers how many frames were read. -3 if the handle is closed or of another kind. -6 (limit) if there are places, and 2^62 frames were read before. A refusal changes nothing.
#[unsafe(no_mangle)]
pub extern "C" fn zeldorgacs_listener_read(
    alloc: Global,
    listener: &mut Handle,
    places: &mut [Frame],
) -> i64 {
    let Some(mut kept) = taken(alloc, listener) else {
        return NO_HANDLE;
    };
    let answer = match &mut *kept {
        Kept::Listener(end) => told(end.read(first_places(places))),
        _ => NO_HANDLE,
    };
    put(alloc, listener, kept);
    answer
}

/// How many frames were read; or -3 if the handle is closed or of another kind.
#[unsafe(no_mangle)]
pub extern "C" fn zeldorgacs_listener_total(alloc: Global, listener: &mut Handle) -> i64 {
    let Some(mut kept) = taken(alloc, listener) else {
        return NO_HANDLE;
    };
    let answer = match &mut *kept {
        Kept::Listener(end) => counted(end.total()),
        _ => NO_HANDLE,
    };
    put(alloc, listener, kept);
    answer
}
