//! The client of a track.

use crate::answers::{NO_HANDLE, asked, done, told};
use crate::frames::first;
use crate::handle::Handle;
use crate::kept::Kept;
use crate::opened::{put, taken};
use af_base::Frame;
use af_mixer_ends::TrackEnd;
use std::alloc::Global;

/// What C is told of a track.
#[derive(Clone, Copy, Drop)]
#[repr(C)]
pub struct TrackInfo {
    pub life: u32,
    pub drained: u32,
    pub settled: u32,
    pub flags: u32,
    pub released: u64,
}

/// Releases the first of these frames, at most 1024, as many as there is room for before the last cell.
///
/// Answers how many frames were released: 0 if the block is full, or there are none. -3 if the handle is closed or of another kind. -4 (dead) if INVALID is seen. -6 (limit) if there are frames, and 2^62 were released before. A refusal changes nothing of the track.
#[unsafe(no_mangle)]
pub extern "C" fn zeldorgacs_track_write(
    alloc: Global,
    track: &mut Handle,
    frames: &[Frame],
) -> i64 {
    let Some(mut kept) = taken(alloc, track) else {
        return NO_HANDLE;
    };
    let answer = match &mut *kept {
        Kept::Track(end) => told(end.write(first(frames))),
        _ => NO_HANDLE,
    };
    put(alloc, track, kept);
    answer
}

/// Sets the gains of the two sides, each in 4.12, from 0 to unity (0x1000).
///
/// Answers 0. -1 (argument) if one is above unity. -3 if the handle is closed or of another kind. A refusal changes nothing.
#[unsafe(no_mangle)]
pub extern "C" fn zeldorgacs_track_set_gains(
    alloc: Global,
    track: &mut Handle,
    left: u16,
    right: u16,
) -> i64 {
    let Some(mut kept) = taken(alloc, track) else {
        return NO_HANDLE;
    };
    let answer = match &mut *kept {
        Kept::Track(end) => done(end.set_gains(left, right)),
        _ => NO_HANDLE,
    };
    put(alloc, track, kept);
    answer
}

// Tells what is known of a track.
fn tell(end: &mut TrackEnd, info: &mut TrackInfo) {
    let status = end.status();
    *info = TrackInfo {
        life: status.life,
        drained: u32::from(status.drained),
        settled: status.settled,
        flags: status.flags,
        released: status.released,
    };
}

/// What the normal mixer said of the track last, and the flags, of which DISABLED is cleared.
///
/// Answers 0. -3 if the handle is closed or of another kind, and then what is told stays.
#[unsafe(no_mangle)]
pub extern "C" fn zeldorgacs_track_status(
    alloc: Global,
    track: &mut Handle,
    info: &mut TrackInfo,
) -> i64 {
    let Some(mut kept) = taken(alloc, track) else {
        return NO_HANDLE;
    };
    let answer = match &mut *kept {
        Kept::Track(end) => {
            tell(end, info);
            0
        }
        _ => NO_HANDLE,
    };
    put(alloc, track, kept);
    answer
}

/// The track plays from the next turn on, once the flushes asked for are seen.
///
/// Answers 0. -3 if the handle is closed or of another kind. -4 (dead) if INVALID is seen. -6 (limit) if 2^62 words of commands were sent before. -7 (full) if 64 commands are on their way. A refusal sends nothing.
#[unsafe(no_mangle)]
pub extern "C" fn zeldorgacs_track_start(alloc: Global, track: &mut Handle) -> i64 {
    let Some(mut kept) = taken(alloc, track) else {
        return NO_HANDLE;
    };
    let answer = match &mut *kept {
        Kept::Track(end) => asked(end.start()),
        _ => NO_HANDLE,
    };
    put(alloc, track, kept);
    answer
}

/// The track pauses: what was written stays, and a start goes on from there.
///
/// Answers 0. -3 if the handle is closed or of another kind. -4 (dead) if INVALID is seen. -6 (limit) if 2^62 words of commands were sent before. -7 (full) if 64 commands are on their way. A refusal sends nothing.
#[unsafe(no_mangle)]
pub extern "C" fn zeldorgacs_track_pause(alloc: Global, track: &mut Handle) -> i64 {
    let Some(mut kept) = taken(alloc, track) else {
        return NO_HANDLE;
    };
    let answer = match &mut *kept {
        Kept::Track(end) => asked(end.pause()),
        _ => NO_HANDLE,
    };
    put(alloc, track, kept);
    answer
}

/// The track stops once all that was written is consumed.
///
/// Answers 0. -3 if the handle is closed or of another kind. -4 (dead) if INVALID is seen. -6 (limit) if 2^62 words of commands were sent before, or 2^32 frames or more were written. -7 (full) if 64 commands are on their way. A refusal sends nothing.
#[unsafe(no_mangle)]
pub extern "C" fn zeldorgacs_track_stop(alloc: Global, track: &mut Handle) -> i64 {
    let Some(mut kept) = taken(alloc, track) else {
        return NO_HANDLE;
    };
    let answer = match &mut *kept {
        Kept::Track(end) => asked(end.stop()),
        _ => NO_HANDLE,
    };
    put(alloc, track, kept);
    answer
}

/// What was written and not played yet is discarded, and the normal mixer is told of it.
///
/// Answers 0. -3 if the handle is closed or of another kind. -4 (dead) if INVALID is seen. -6 (limit) if 2^62 words of commands were sent before, or as many flushes were asked for as can be told apart. -7 (full) if 64 commands are on their way. What was written is discarded also if the answer is -4 or -7.
#[unsafe(no_mangle)]
pub extern "C" fn zeldorgacs_track_flush(alloc: Global, track: &mut Handle) -> i64 {
    let Some(mut kept) = taken(alloc, track) else {
        return NO_HANDLE;
    };
    let answer = match &mut *kept {
        Kept::Track(end) => asked(end.flush()),
        _ => NO_HANDLE,
    };
    put(alloc, track, kept);
    answer
}

/// The track ends, and never plays again.
///
/// Answers 0. -3 if the handle is closed or of another kind. -4 (dead) if INVALID is seen. -6 (limit) if 2^62 words of commands were sent before. -7 (full) if 64 commands are on their way. A refusal sends nothing.
#[unsafe(no_mangle)]
pub extern "C" fn zeldorgacs_track_remove(alloc: Global, track: &mut Handle) -> i64 {
    let Some(mut kept) = taken(alloc, track) else {
        return NO_HANDLE;
    };
    let answer = match &mut *kept {
        Kept::Track(end) => asked(end.remove()),
        _ => NO_HANDLE,
    };
    put(alloc, track, kept);
    answer
}
