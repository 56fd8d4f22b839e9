//! The end of a static buffer that plays.

use crate::answers::{NO_HANDLE, counted, told};
use crate::frames::first_places;
use crate::handle::Handle;
use crate::kept::Kept;
use crate::opened::{put, taken};
use af_base::{Frame, Gains};
use af_ends::{EndError, PlayerEnd};
use std::alloc::Global;

// Plays to the first of these places, at most 1024, and writes the number of the setting. Answers how many frames of the buffer were taken.
fn play(
    end: &mut PlayerEnd,
    gains: Gains,
    places: &mut [Frame],
    number: &mut i64,
) -> Result<u32, EndError> {
    let unrolled = end.play(gains, first_places(places))?;
    *number = counted(unrolled.number);
    if unrolled.shut.is_some() {
        return Err(EndError::Corrupt);
    }
    Ok(unrolled.filled)
}

/// Plays the next frames of the buffer to the first of these places, at most 1024, with silence behind the buffer's end. The gains are in 4.12 and clamped to unity (0x1000). `number` becomes the number of the setting that was played, 0 if none was set.
///
/// Answers how many frames of the buffer were taken. -1 (argument) if there is no place for a frame: then nothing changes. -3 if the handle is closed or of another kind: then nothing changes. -5 (corrupt) if an invalid setting has shut the player: then these places are silence, and `number` is the number of that setting.
#[unsafe(no_mangle)]
pub extern "C" fn zeldorgacs_player_play(
    alloc: Global,
    player: &mut Handle,
    left: u16,
    right: u16,
    places: &mut [Frame],
    number: &mut i64,
) -> i64 {
    let Some(mut kept) = taken(alloc, player) else {
        return NO_HANDLE;
    };
    let answer = match &mut *kept {
        Kept::Player(end) => {
            let word = u32::from(left) + (u32::from(right) << 16);
            told(play(end, Gains::clamped(word), places, number))
        }
        _ => NO_HANDLE,
    };
    put(alloc, player, kept);
    answer
}
