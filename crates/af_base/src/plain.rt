//! The mix by its definition: plain and slow, one sum per position. Tests compare the kernels with it.
ghost use Rattle.std.specs.Prelude.{◌≡◌, ◌≤◌, ◌*◌, ◌^◌, ◌*ℤ◌, ◌+◌, pos, length, map, IfOk, unsigned_abs};
ghost use Rattle.af_base.specs.Gain.{gain_used, left_half, right_half};
ghost use Rattle.af_base.specs.Mix.{frame_at, left_part, left_sum, mix, mixed_frame, mixed_sample, right_part, right_sum};
ghost use Rattle.af_base.specs.Part.{take_of};

use crate::{Frame, Memory};
use std::alloc::Global;

/// One take of a mix: some frames, whether they are mono, a gain word and a 4.12 scale.
#[derive(Clone, Copy)]
pub struct Part<'a> {
    pub frames: &'a [Frame],
    pub mono: bool,
    pub gains: u32,
    pub scale: u16,
}

/// The gain of a half of a gain word at a scale.
fn gain_used(half: u16, scale: u16) -> u16
    ensures { result ≡ gain_used half scale }
{
    ((u32::from(half.min(0x1000)) * u32::from(scale)) >> 12) as u16
}

/// The frame at a position, silence past the end.
fn frame_at(frames: &[Frame], at: usize) -> Frame
    ensures { result ≡ frame_at frames.now at }
{
    if at < frames.len() {
        frames[at]
    } else {
        Frame { left: 0, right: 0 }
    }
}

/// A sample times its gain.
fn product(sample: i16, gain: u16) -> i128
    ensures value { result ≡ sample *ℤ pos gain }
    ensures bound { unsigned_abs result ≤ 2 ^ 31 }
{
    i128::from(sample) * i128::from(gain)
}

fn left_part(part: &Part<'_>, at: usize) -> i128
    ensures value { result ≡ left_part (take_of part.now) at }
    ensures bound { unsigned_abs result ≤ 2 ^ 31 }
{
    let gain = gain_used((part.gains & 0xffff) as u16, part.scale);
    product(frame_at(part.frames, at).left, gain)
}

fn right_part(part: &Part<'_>, at: usize) -> i128
    ensures value { result ≡ right_part (take_of part.now) at }
    ensures bound { unsigned_abs result ≤ 2 ^ 31 }
{
    let gain = gain_used((part.gains >> 16) as u16, part.scale);
    let frame = frame_at(part.frames, at);
    if part.mono {
        product(frame.left, gain)
    } else {
        product(frame.right, gain)
    }
}

fn left_sum(parts: &[Part<'_>], at: usize) -> i128
    ensures value { result ≡ left_sum (map take_of parts.now) at }
    ensures bound { unsigned_abs result ≤ length parts.now * 2 ^ 31 }
{
    match parts {
        [] => 0,
        [first, rest @ ..] => left_part(first, at) + left_sum(rest, at),
    }
}

fn right_sum(parts: &[Part<'_>], at: usize) -> i128
    ensures value { result ≡ right_sum (map take_of parts.now) at }
    ensures bound { unsigned_abs result ≤ length parts.now * 2 ^ 31 }
{
    match parts {
        [] => 0,
        [first, rest @ ..] => right_part(first, at) + right_sum(rest, at),
    }
}

/// A sum divided by unity, rounded down, as the nearest sample.
fn mixed_sample(sum: i128) -> i16
    ensures { result ≡ mixed_sample sum }
{
    (sum >> 12).clamp(-32768, 32767) as i16
}

/// One frame of the mix of any number of takes, at a position.
pub fn plain_frame(parts: &[Part<'_>], at: usize) -> Frame
    ensures { result ≡ mixed_frame (map take_of parts.now) at }
{
    Frame {
        left: mixed_sample(left_sum(parts, at)),
        right: mixed_sample(right_sum(parts, at)),
    }
}

/// The mix of any number of takes at a length, in frames. Memory is its only refusal.
pub fn plain_mix(alloc: Global, parts: &[Part<'_>], len: usize) -> Result<Vec<Frame>, Memory>
    ensures { IfOk result (λ frames. frames.items ≡ mix (map take_of parts.now) len) }
{
    let mut frames = Vec::new(alloc);
    for at in 0..len {
        frames.push(plain_frame(parts, at))?;
    }
    Ok(frames)
}
