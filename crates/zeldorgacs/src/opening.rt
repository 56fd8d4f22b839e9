//! How two ends are opened.

use crate::handle::Handle;
use crate::kept::Kept;
use crate::opened::{Ends, boxed, put_both};
use af_base::Frame;
use af_ends::{open_record, open_static, open_stream};
use std::alloc::Global;

// The two ends of a stream.
fn stream_ends(alloc: Global, frames: u32) -> Ends {
    let (first, second) = open_stream(alloc, frames)?;
    let client = boxed(alloc, Kept::Client(first))?;
    let server = boxed(alloc, Kept::Server(second))?;
    Ok((client, server))
}

/// Opens a stream of so many frames, from 1 to 8192. What the handles led to is closed.
///
/// Answers 0. -1 (argument) if the number of frames is outside that range. -2 (memory) if an allocation was refused. A refusal changes nothing.
#[unsafe(no_mangle)]
pub extern "C" fn zeldorgacs_stream_open(
    alloc: Global,
    frames: u32,
    client: &mut Handle,
    server: &mut Handle,
) -> i64 {
    put_both(alloc, client, server, stream_ends(alloc, frames))
}

// The two ends of a recording.
fn record_ends(alloc: Global, frames: u32) -> Ends {
    let (first, second) = open_record(alloc, frames)?;
    let capture = boxed(alloc, Kept::Capture(first))?;
    let listener = boxed(alloc, Kept::Listener(second))?;
    Ok((capture, listener))
}

/// Opens a recording of so many frames, from 1 to 8192. What the handles led to is closed.
///
/// Answers 0. -1 (argument) if the number of frames is outside that range. -2 (memory) if an allocation was refused. A refusal changes nothing.
#[unsafe(no_mangle)]
pub extern "C" fn zeldorgacs_record_open(
    alloc: Global,
    frames: u32,
    capture: &mut Handle,
    listener: &mut Handle,
) -> i64 {
    put_both(alloc, capture, listener, record_ends(alloc, frames))
}

// The two ends of a static buffer with these frames.
fn static_ends(alloc: Global, frames: &[Frame]) -> Ends {
    let (first, second) = open_static(alloc, frames)?;
    let setter = boxed(alloc, Kept::Setter(first))?;
    let player = boxed(alloc, Kept::Player(second))?;
    Ok((setter, player))
}

/// Opens a static buffer with a copy of these frames, from 1 to 8192. What the handles led to is closed.
///
/// Answers 0. -1 (argument) if the number of frames is outside that range. -2 (memory) if an allocation was refused. A refusal changes nothing.
#[unsafe(no_mangle)]
pub extern "C" fn zeldorgacs_static_open(
    alloc: Global,
    frames: &[Frame],
    setter: &mut Handle,
    player: &mut Handle,
) -> i64 {
    put_both(alloc, setter, player, static_ends(alloc, frames))
}
