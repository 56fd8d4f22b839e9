//! The server of a stream.

use crate::answers::{NO_HANDLE, counted, done, told};
use crate::frames::first_places;
use crate::handle::Handle;
use crate::kept::Kept;
use crate::opened::{put, taken};
use af_base::Frame;
use af_ends::{EndError, Found, StreamServer};
use std::alloc::Global;

// How many frames were discarded by the flush that was noticed, or -1 if no flush was.
fn flushed_by(found: Found) -> i64 {
    match found.flushed {
        Some(dropped) => i64::from(dropped),
        None => -1,
    }
}

// Reads as many frames as are there and have a place, at most 1024, and writes what a flush discarded.
fn read(end: &mut StreamServer, places: &mut [Frame], flushed: &mut i64) -> Result<u32, EndError> {
    let found = end.read(first_places(places))?;
    *flushed = flushed_by(found);
    Ok(found.frames)
}

// How many frames are there. It writes what a flush discarded.
fn available(end: &mut StreamServer, flushed: &mut i64) -> Result<u32, EndError> {
    let found = end.available()?;
    *flushed = flushed_by(found);
    Ok(found.frames)
}

/// Reads as many frames as are there and have a place, at most 1024. The places behind them stay. `flushed` becomes the number of frames that a flush noticed by this call discarded, and -1 if it noticed none.
///
/// Answers how many frames were read, 0 if a flush was noticed. -3 if the handle is closed or of another kind. -5 (corrupt) if front and rear do not fit the block, in this call or in an earlier one. After a refusal `places` and `flushed` are as before.
#[unsafe(no_mangle)]
pub extern "C" fn zeldorgacs_server_read(
    alloc: Global,
    server: &mut Handle,
    places: &mut [Frame],
    flushed: &mut i64,
) -> i64 {
    let Some(mut kept) = taken(alloc, server) else {
        return NO_HANDLE;
    };
    let answer = match &mut *kept {
        Kept::Server(end) => told(read(end, places, flushed)),
        _ => NO_HANDLE,
    };
    put(alloc, server, kept);
    answer
}

/// How many frames are there. The call takes none of them. `flushed` becomes the number of frames that a flush noticed by this call discarded, and -1 if it noticed none.
///
/// Answers the number of frames, 0 if a flush was noticed. -3 if the handle is closed or of another kind. -5 (corrupt) if front and rear do not fit the block, in this call or in an earlier one. After a refusal `flushed` is as before.
#[unsafe(no_mangle)]
pub extern "C" fn zeldorgacs_server_available(
    alloc: Global,
    server: &mut Handle,
    flushed: &mut i64,
) -> i64 {
    let Some(mut kept) = taken(alloc, server) else {
        return NO_HANDLE;
    };
    let answer = match &mut *kept {
        Kept::Server(end) => told(available(end, flushed)),
        _ => NO_HANDLE,
    };
    put(alloc, server, kept);
    answer
}

/// The gains that the client set last, each in 4.12 and clamped to unity (0x1000): left in the low 16 bits, right in the high 16 bits; or -3 if the handle is closed or of another kind.
#[unsafe(no_mangle)]
pub extern "C" fn zeldorgacs_server_gains(alloc: Global, server: &mut Handle) -> i64 {
    let Some(mut kept) = taken(alloc, server) else {
        return NO_HANDLE;
    };
    let answer = match &mut *kept {
        Kept::Server(end) => {
            let gains = end.gains();
            i64::from(gains.left()) + (i64::from(gains.right()) << 16)
        }
        _ => NO_HANDLE,
    };
    put(alloc, server, kept);
    answer
}

/// Counts so many frames as missing, and sets UNDERRUN (0x01).
///
/// Answers 0. -1 (argument) if `missing` is 0. -3 if the handle is closed or of another kind. A refusal changes nothing.
#[unsafe(no_mangle)]
pub extern "C" fn zeldorgacs_server_tally(alloc: Global, server: &mut Handle, missing: u32) -> i64 {
    let Some(mut kept) = taken(alloc, server) else {
        return NO_HANDLE;
    };
    let answer = match &mut *kept {
        Kept::Server(end) => done(end.tally(missing)),
        _ => NO_HANDLE,
    };
    put(alloc, server, kept);
    answer
}

/// Sets INVALID (0x04): the client writes no more. Answers 0; or -3 if the handle is closed or of another kind.
#[unsafe(no_mangle)]
pub extern "C" fn zeldorgacs_server_invalidate(alloc: Global, server: &mut Handle) -> i64 {
    let Some(mut kept) = taken(alloc, server) else {
        return NO_HANDLE;
    };
    let answer = match &mut *kept {
        Kept::Server(end) => {
            end.invalidate();
            0
        }
        _ => NO_HANDLE,
    };
    put(alloc, server, kept);
    answer
}

/// Sets DISABLED (0x08), which the client clears. Answers 0; or -3 if the handle is closed or of another kind.
#[unsafe(no_mangle)]
pub extern "C" fn zeldorgacs_server_disable(alloc: Global, server: &mut Handle) -> i64 {
    let Some(mut kept) = taken(alloc, server) else {
        return NO_HANDLE;
    };
    let answer = match &mut *kept {
        Kept::Server(end) => {
            end.disable();
            0
        }
        _ => NO_HANDLE,
    };
    put(alloc, server, kept);
    answer
}

/// Stores the status word, which the client sees. Answers 0; or -3 if the handle is closed or of another kind.
#[unsafe(no_mangle)]
pub extern "C" fn zeldorgacs_server_set_status(
    alloc: Global,
    server: &mut Handle,
    word: u32,
) -> i64 {
    let Some(mut kept) = taken(alloc, server) else {
        return NO_HANDLE;
    };
    let answer = match &mut *kept {
        Kept::Server(end) => {
            end.set_status(word);
            0
        }
        _ => NO_HANDLE,
    };
    put(alloc, server, kept);
    answer
}

/// How many frames were taken and discarded together, up to 2^63 - 1; or -3 if the handle is closed or of another kind.
#[unsafe(no_mangle)]
pub extern "C" fn zeldorgacs_server_consumed(alloc: Global, server: &mut Handle) -> i64 {
    let Some(mut kept) = taken(alloc, server) else {
        return NO_HANDLE;
    };
    let answer = match &mut *kept {
        Kept::Server(end) => counted(end.consumed()),
        _ => NO_HANDLE,
    };
    put(alloc, server, kept);
    answer
}

/// How many flushes had been asked for, by the last one that was noticed; or -3 if the handle is closed or of another kind.
#[unsafe(no_mangle)]
pub extern "C" fn zeldorgacs_server_flush_seen(alloc: Global, server: &mut Handle) -> i64 {
    let Some(mut kept) = taken(alloc, server) else {
        return NO_HANDLE;
    };
    let answer = match &mut *kept {
        Kept::Server(end) => i64::from(end.flush_seen()),
        _ => NO_HANDLE,
    };
    put(alloc, server, kept);
    answer
}

/// How many frames the stream may hold; or -3 if the handle is closed or of another kind.
#[unsafe(no_mangle)]
pub extern "C" fn zeldorgacs_server_frames(alloc: Global, server: &mut Handle) -> i64 {
    let Some(mut kept) = taken(alloc, server) else {
        return NO_HANDLE;
    };
    let answer = match &mut *kept {
        Kept::Server(end) => i64::from(end.frames()),
        _ => NO_HANDLE,
    };
    put(alloc, server, kept);
    answer
}
