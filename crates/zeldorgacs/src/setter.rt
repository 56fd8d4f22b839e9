//! The end of a static buffer that sets loops.

use crate::answers::{NO_HANDLE, counted, refused};
use crate::handle::Handle;
use crate::kept::Kept;
use crate::opened::{put, taken};
use std::alloc::Global;

/// Sets the start, end (both in frames) and count of a loop. Any numbers are taken: the player judges them.
///
/// Answers the number of the setting, from 1. -3 if the handle is closed or of another kind. -6 (limit) if 2^63 settings were made before. A refusal changes nothing.
#[unsafe(no_mangle)]
pub extern "C" fn zeldorgacs_setter_set(
    alloc: Global,
    setter: &mut Handle,
    start: u32,
    until: u32,
    count: u32,
) -> i64 {
    let Some(mut kept) = taken(alloc, setter) else {
        return NO_HANDLE;
    };
    let answer = match &mut *kept {
        Kept::Setter(end) => {
            match end.set(start, until, count) {
                Ok(number) => counted(number),
                Err(error) => refused(error),
            }
        }
        _ => NO_HANDLE,
    };
    put(alloc, setter, kept);
    answer
}
