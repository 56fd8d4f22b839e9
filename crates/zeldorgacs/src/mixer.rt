//! How a mixer is opened.

use crate::answers::refused;
use crate::handle::Handle;
use crate::kept::Kept;
use crate::opened::{boxed, put};
use af_ends::EndError;
use af_engine::{EngineTrack, MakeError, MixerSpec};
use af_mixer_ends::{FastEnd, NormalEnd, TrackEnd, open_mixer};
use std::alloc::Global;
use std::mem::drop;

/// How many tracks a mixer has at most.
const MOST_TRACKS: usize = 32;

/// What C says of a mixer.
#[derive(Clone, Copy, Drop)]
#[repr(C)]
pub struct MixerShape {
    pub frames: u32,
    pub normal: u32,
    pub log: u32,
}

/// What C says of a track.
#[derive(Clone, Copy, Drop)]
#[repr(C)]
pub struct TrackSpec {
    pub fast: u8,
    pub mono: u8,
    pub scale: u16,
    pub frames: u32,
}

/// The boxes of a mixer's ends.
#[derive(Drop)]
struct Boxes {
    normal: Box<Kept, Global>,
    fast: Box<Kept, Global>,
    tracks: Vec<Box<Kept, Global>>,
}

// The tracks of these specs, in order.
fn tracks_of(alloc: Global, specs: &[TrackSpec]) -> Result<Vec<EngineTrack>, EndError> {
    let mut tracks = Vec::new(alloc);
    for spec in specs {
        let track = EngineTrack {
            fast: spec.fast != 0,
            mono: spec.mono != 0,
            positional: true,
            scale: spec.scale,
            frames: spec.frames,
            base: 0,
        };
        if tracks.push(track).is_err() {
            return Err(EndError::Memory);
        }
    }
    Ok(tracks)
}

// The ends of a mixer of these tracks.
fn open_ends(
    alloc: Global,
    shape: &MixerShape,
    specs: &[TrackSpec],
) -> Result<(NormalEnd, FastEnd, Vec<TrackEnd>), EndError> {
    let tracks = tracks_of(alloc, specs)?;
    let spec = MixerSpec {
        frames: shape.frames,
        normal: shape.normal,
        cycles: shape.log,
        tracks: &tracks,
    };
    match open_mixer(alloc, &spec) {
        Ok(ends) => Ok(ends),
        Err(MakeError::Spec { .. }) => Err(EndError::Argument),
        Err(MakeError::Memory) => Err(EndError::Memory),
    }
}

// Boxes with the ends of the tracks, each of which is opened.
fn track_boxes(alloc: Global, tracks: Vec<TrackEnd>) -> Result<Vec<Box<Kept, Global>>, EndError> {
    let mut boxes = Vec::new(alloc);
    for one in tracks {
        let mut end = one;
        // It is the first command of a new block, which has room for it.
        let _opened = end.open();
        let kept = boxed(alloc, Kept::Track(end))?;
        if boxes.push(kept).is_err() {
            return Err(EndError::Memory);
        }
    }
    Ok(boxes)
}

// Boxes with the ends of a mixer of these tracks.
fn boxes_of(alloc: Global, shape: &MixerShape, specs: &[TrackSpec]) -> Result<Boxes, EndError> {
    let (turns, cycles, ends) = open_ends(alloc, shape, specs)?;
    let Ok(tracks) = track_boxes(alloc, ends) else {
        drop(turns);
        drop(cycles);
        return Err(EndError::Memory);
    };
    let Ok(normal) = boxed(alloc, Kept::Normal(turns)) else {
        drop(tracks);
        drop(cycles);
        return Err(EndError::Memory);
    };
    let Ok(fast) = boxed(alloc, Kept::Fast(cycles)) else {
        drop(tracks);
        drop(normal);
        return Err(EndError::Memory);
    };
    Ok(Boxes {
        normal,
        fast,
        tracks,
    })
}

/// Opens a mixer of this shape: frames a cycle, from 1 to 1024; cycles a normal buffer, from 1 to 16; cycles that the fast mixer's log has, from 1 to 100,000 and with at most 2^21 frames together, before it forgets them; and from 1 to 32 tracks of these specs, for each of which there is a handle. What the handles led to is closed.
///
/// Answers 0. -1 (argument) if a number is outside its range, or there are not as many handles as specs. -2 (memory) if an allocation was refused. A refusal changes nothing.
#[unsafe(no_mangle)]
pub extern "C" fn zeldorgacs_mixer_open(
    alloc: Global,
    shape: &MixerShape,
    specs: &[TrackSpec],
    turns: &mut Handle,
    cycles: &mut Handle,
    tracks: &mut [Handle],
) -> i64 {
    if specs.len() > MOST_TRACKS || specs.len() != tracks.len() {
        return refused(EndError::Argument);
    }
    match boxes_of(alloc, shape, specs) {
        Ok(boxes) => {
            let Boxes {
                normal,
                fast,
                tracks: ends,
            } = boxes;
            put(alloc, turns, normal);
            put(alloc, cycles, fast);
            for (handle, kept) in tracks.iter_mut().zip(ends) {
                put(alloc, handle, kept);
            }
            0
        }
        Err(error) => refused(error),
    }
}
