//! How a handle is closed.

use crate::handle::Handle;
use crate::opened::{close, taken};
use std::alloc::Global;

/// Closes a handle of any kind: its end is freed, and what two ends share is freed with the second of them. A closed handle stays as it is. No refusal comes.
#[unsafe(no_mangle)]
pub extern "C" fn zeldorgacs_close(alloc: Global, handle: &mut Handle) {
    if let Some(kept) = taken(alloc, handle) {
        close(kept);
    }
}
