//! What rounds of one kind take.
use std::sync::atomic::{AtomicU32, Ordering};

/// What a round takes of late, in nanoseconds: half of its newest measure and half of what it was before; 0 before the first.
#[derive(Drop)]
pub(crate) struct Cost {
    mean: AtomicU32,
}

// The mean with one measure more.
fn with_measure(mean: u32, nanoseconds: u32) -> u32 {
    if mean == 0 {
        return nanoseconds;
    }
    let both = u64::from(mean) + u64::from(nanoseconds);
    (both / 2) as u32
}

impl Cost {
    /// Nothing was measured.
    pub(crate) fn new() -> Self {
        Cost {
            mean: AtomicU32::new(0),
        }
    }

    /// A round took so many nanoseconds; more than four seconds count as four.
    pub(crate) fn measure(&self, nanoseconds: u64) {
        let least = nanoseconds.min(u64::from(u32::MAX)) as u32;
        let mean = self.mean.load(Ordering::SeqCst);
        self.mean.store(with_measure(mean, least), Ordering::SeqCst);
    }

    /// What a round takes of late.
    pub(crate) fn mean(&self) -> u32 {
        self.mean.load(Ordering::SeqCst)
    }
}
