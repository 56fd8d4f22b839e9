//! The client of a stream.

use crate::answers::{NO_HANDLE, counted, done, told};
use crate::frames::first;
use crate::handle::Handle;
use crate::kept::Kept;
use crate::opened::{put, taken};
use af_base::Frame;
use std::alloc::Global;

/// Writes the first of these frames, at most 1024, as many as there is room for before the last cell.
///
/// Answers how many frames were written. -3 if the handle is closed or of another kind. -4 (dead) if INVALID is seen. -6 (limit) if there are frames to write, and 2^62 were released before. A refusal writes nothing.
#[unsafe(no_mangle)]
pub extern "C" fn zeldorgacs_client_write(
    alloc: Global,
    client: &mut Handle,
    frames: &[Frame],
) -> i64 {
    let Some(mut kept) = taken(alloc, client) else {
        return NO_HANDLE;
    };
    let answer = match &mut *kept {
        Kept::Client(end) => told(end.write(first(frames))),
        _ => NO_HANDLE,
    };
    put(alloc, client, kept);
    answer
}

/// Asks the server to discard the frames written so far.
///
/// Answers how many flushes were asked for. -3 if the handle is closed or of another kind. -6 (limit) if as many flushes were asked for before as flush words can distinguish. A refusal changes nothing.
#[unsafe(no_mangle)]
pub extern "C" fn zeldorgacs_client_flush(alloc: Global, client: &mut Handle) -> i64 {
    let Some(mut kept) = taken(alloc, client) else {
        return NO_HANDLE;
    };
    let answer = match &mut *kept {
        Kept::Client(end) => told(end.flush()),
        _ => NO_HANDLE,
    };
    put(alloc, client, kept);
    answer
}

/// Sets the gains of the left and the right side, each in 4.12, from 0 to unity (0x1000).
///
/// Answers 0. -1 (argument) if a gain is above unity. -3 if the handle is closed or of another kind. A refusal changes nothing.
#[unsafe(no_mangle)]
pub extern "C" fn zeldorgacs_client_set_gains(
    alloc: Global,
    client: &mut Handle,
    left: u16,
    right: u16,
) -> i64 {
    let Some(mut kept) = taken(alloc, client) else {
        return NO_HANDLE;
    };
    let answer = match &mut *kept {
        Kept::Client(end) => done(end.set_gains(left, right)),
        _ => NO_HANDLE,
    };
    put(alloc, client, kept);
    answer
}

/// The status word that the server stored last, 0 if it stored none; or -3 if the handle is closed or of another kind.
#[unsafe(no_mangle)]
pub extern "C" fn zeldorgacs_client_status(alloc: Global, client: &mut Handle) -> i64 {
    let Some(mut kept) = taken(alloc, client) else {
        return NO_HANDLE;
    };
    let answer = match &mut *kept {
        Kept::Client(end) => i64::from(end.status()),
        _ => NO_HANDLE,
    };
    put(alloc, client, kept);
    answer
}

/// Clears DISABLED (0x08), and answers the flags before; or -3 if the handle is closed or of another kind.
#[unsafe(no_mangle)]
pub extern "C" fn zeldorgacs_client_clear_disabled(alloc: Global, client: &mut Handle) -> i64 {
    let Some(mut kept) = taken(alloc, client) else {
        return NO_HANDLE;
    };
    let answer = match &mut *kept {
        Kept::Client(end) => i64::from(end.clear_disabled()),
        _ => NO_HANDLE,
    };
    put(alloc, client, kept);
    answer
}

/// How many frames were written; or -3 if the handle is closed or of another kind.
#[unsafe(no_mangle)]
pub extern "C" fn zeldorgacs_client_released(alloc: Global, client: &mut Handle) -> i64 {
    let Some(mut kept) = taken(alloc, client) else {
        return NO_HANDLE;
    };
    let answer = match &mut *kept {
        Kept::Client(end) => counted(end.released()),
        _ => NO_HANDLE,
    };
    put(alloc, client, kept);
    answer
}

/// How many flushes were asked for; or -3 if the handle is closed or of another kind.
#[unsafe(no_mangle)]
pub extern "C" fn zeldorgacs_client_flushes(alloc: Global, client: &mut Handle) -> i64 {
    let Some(mut kept) = taken(alloc, client) else {
        return NO_HANDLE;
    };
    let answer = match &mut *kept {
        Kept::Client(end) => i64::from(end.flushes()),
        _ => NO_HANDLE,
    };
    put(alloc, client, kept);
    answer
}

/// How many frames the stream may hold; or -3 if the handle is closed or of another kind.
#[unsafe(no_mangle)]
pub extern "C" fn zeldorgacs_client_frames(alloc: Global, client: &mut Handle) -> i64 {
    let Some(mut kept) = taken(alloc, client) else {
        return NO_HANDLE;
    };
    let answer = match &mut *kept {
        Kept::Client(end) => i64::from(end.frames()),
        _ => NO_HANDLE,
    };
    put(alloc, client, kept);
    answer
}
