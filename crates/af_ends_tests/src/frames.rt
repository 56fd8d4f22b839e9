//! Numbered frames.
use af_base::Frame;
use std::alloc::Global;

pub(crate) const NOTHING: Frame = Frame { left: 0, right: 0 };

// Gives frames these numbers as their words, from the first on.
pub(crate) fn number(frames: &mut [Frame], first: u32) {
    let mut next = first;
    for frame in frames.iter_mut() {
        *frame = Frame::unpack(next);
        next = next.wrapping_add(1);
    }
}

// So many frames with the numbers from 0 on as their words, or as many as there is memory for.
pub(crate) fn numbered(alloc: Global, count: u32) -> Vec<Frame> {
    let mut frames = Vec::new(alloc);
    for word in 0..count {
        let _added = frames.push(Frame::unpack(word));
    }
    frames
}
