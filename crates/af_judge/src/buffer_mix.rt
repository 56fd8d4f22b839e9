//! The mix of a buffer: by the kernel, and by the definition if the kernel doesn't take what a journal tells.
ghost use Rattle.std.specs.Prelude.{◌≡◌, ◌≤◌, true, length, map, All, IfOk};
ghost use Rattle.af_base.specs.Mix.{mix};
ghost use Rattle.af_base.specs.Part.{take_of};

use af_base::{Frame, Memory, Part, plain_mix};
use af_gain::{Sum, mix};
use std::alloc::Global;

// The most parts that the kernel mixes.
const MOST_PARTS: usize = 32;

// Whether the kernel takes these parts: there aren't too many, and none is longer than what is asked for, or scaled beyond unity.
fn are_fit(parts: &[Part<'_>], asked: usize) -> bool
    ensures few { result ≡ true → length parts.now ≤ 32 }
    ensures fits { result ≡ true → All (λ part. (length part.frames.now ≤ asked) × (part.scale ≤ 4096)) parts.now }
{
    if parts.len() > MOST_PARTS {
        return false;
    }
    for part in parts {
        if part.frames.len() > asked || part.scale > 4096 {
            return false;
        }
    }
    true
}

// The mix by the kernel.
fn kernel_mix(alloc: Global, parts: &[Part<'_>], len: usize) -> Result<Vec<Frame>, Memory>
    requires few { length parts.now ≤ 32 }
    requires fits { All (λ part. (length part.frames.now ≤ len) × (part.scale ≤ 4096)) parts.now }
    ensures { IfOk result (λ frames. frames.items ≡ mix (map take_of parts.now) len) }
{
    let mut sums = Vec::with_capacity(alloc, len)?;
    sums.resize(len, Sum { left: 0, right: 0 })?;
    let mut frames = Vec::with_capacity(alloc, len)?;
    frames.resize(len, Frame { left: 0, right: 0 })?;
    mix(parts, &mut sums, &mut frames);
    Ok(frames)
}

/// The mix of some parts at a length, in frames. Memory is its only refusal.
pub fn mix_of(alloc: Global, parts: &[Part<'_>], len: usize) -> Result<Vec<Frame>, Memory>
    ensures { IfOk result (λ frames. frames.items ≡ mix (map take_of parts.now) len) }
{
    if are_fit(parts, len) {
        kernel_mix(alloc, parts, len)
    } else {
        plain_mix(alloc, parts, len)
    }
}
