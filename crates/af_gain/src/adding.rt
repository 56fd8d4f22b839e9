ghost use Rattle.std.specs.Prelude.{◌≡◌, ◌⊎◌, ◌<◌, ◌≤◌, ◌+◌, ◌*◌, ◌/◌, ◌%◌, ℕ, true, List, [], ◌∷◌, length, All};
ghost use Rattle.std.specs.Int.{cast_unsigned, w32};
ghost use Rattle.af_base.specs.Mix.{right_sample, frame_at};
ghost use Rattle.af_base.specs.Sample.{IsFrame, packed_word};
ghost use Rattle.af_gain.specs.declared.sums.Sum.{Sum};
ghost use Rattle.af_gain.specs.Sums.{IsWithin, IsHeard, IsGrownTo, IsAccumulated, sum_at, added};

use crate::sums::{Sum, grown_one};
use af_base::{Frame, Gains};
use std::simd::prelude::*;

/// A frame's word, as a number with a sign.
#[inline(always)]
fn word_of(frame: Frame) -> i32
    ensures word { cast_unsigned w32 result ≡ packed_word frame }
    ensures frame { IsFrame frame }
{
    frame.pack().cast_signed()
}

/// The left samples of four frames from a place on, in lanes.
///
/// Each frame's word is shifted up over its right half and back, which costs less than to pick the samples.
#[inline(always)]
fn lefts_four(frames: &[Frame], at: usize) -> i32x4
    requires { at + 4 ≤ length frames.now }
    ensures lanes { result ≡ (frame_at frames.now at).left ∷ (frame_at frames.now (at + 1)).left ∷ (frame_at frames.now (at + 2)).left ∷ (frame_at frames.now (at + 3)).left ∷ [] }
    ensures heard { (IsHeard true (frame_at frames.now at)) × (IsHeard true (frame_at frames.now (at + 1))) × (IsHeard true (frame_at frames.now (at + 2))) × (IsHeard true (frame_at frames.now (at + 3))) }
{
    let first = word_of(frames[at]);
    let second = word_of(frames[at + 1]);
    let third = word_of(frames[at + 2]);
    let fourth = word_of(frames[at + 3]);
    let words = i32x4::from_array([first, second, third, fourth]);
    (words << 16) >> 16
}

/// The left samples of the frame at an even place and of the next one, each twice, in lanes.
#[inline(always)]
fn lefts_two(frames: &[Frame], at: usize) -> i32x4
    requires { (at % 2 ≡ 0) × (at / 4 * 4 + 4 ≤ length frames.now) }
    ensures lanes { result ≡ (frame_at frames.now at).left ∷ (frame_at frames.now at).left ∷ (frame_at frames.now (at + 1)).left ∷ (frame_at frames.now (at + 1)).left ∷ [] }
    ensures heard { (IsHeard true (frame_at frames.now at)) × (IsHeard true (frame_at frames.now (at + 1))) }
{
    let lefts = lefts_four(frames, at / 4 * 4);
    if at % 4 == 0 {
        lefts.swizzle([0, 0, 1, 1])
    } else {
        lefts.swizzle([2, 2, 3, 3])
    }
}

/// The samples of the frame at a place and of the next one as they are heard, in lanes.
#[inline(always)]
pub(crate) fn heard_two(frames: &[Frame], mono: bool, at: usize) -> i32x4
    requires { at + 2 ≤ length frames.now }
    ensures lanes { result ≡ (frame_at frames.now at).left ∷ right_sample mono (frame_at frames.now at) ∷ (frame_at frames.now (at + 1)).left ∷ right_sample mono (frame_at frames.now (at + 1)) ∷ [] }
    ensures heard { (IsHeard mono (frame_at frames.now at)) × (IsHeard mono (frame_at frames.now (at + 1))) }
{
    let next = at + 1;
    let samples = i16x4::from_array([
        frames[at].left,
        frames[at].right,
        frames[next].left,
        frames[next].right,
    ])
    .cast::<i32>();
    if mono {
        samples.swizzle([0, 0, 2, 2])
    } else {
        samples
    }
}

/// The samples of the frame at an even place and of the next one as they are heard, in lanes. The four frames that the two stand among are there, and are read once for both of their pairs.
#[inline(always)]
fn heard_pair(frames: &[Frame], mono: bool, at: usize) -> i32x4
    requires { (at % 2 ≡ 0) × (at / 4 * 4 + 4 ≤ length frames.now) }
    ensures lanes { result ≡ (frame_at frames.now at).left ∷ right_sample mono (frame_at frames.now at) ∷ (frame_at frames.now (at + 1)).left ∷ right_sample mono (frame_at frames.now (at + 1)) ∷ [] }
    ensures heard { (IsHeard mono (frame_at frames.now at)) × (IsHeard mono (frame_at frames.now (at + 1))) }
{
    if mono {
        lefts_two(frames, at)
    } else {
        heard_two(frames, false, at)
    }
}

/// The sums at an even place and behind it, each with one more frame, in lanes.
#[inline(always)]
fn grown_two(
    frames: &[Frame],
    mono: bool,
    left_gain: u16,
    right_gain: u16,
    sums: &[Sum],
    at: usize,
) -> [Sum; 2]
    requires even { at % 2 ≡ 0 }
    requires inside { (at / 4 * 4 + 4 ≤ length frames.now) × (at + 2 ≤ length sums.now) }
    requires room { (IsWithin 31 (sum_at sums.now at)) × (IsWithin 31 (sum_at sums.now (at + 1))) }
    requires unity { (left_gain ≤ 4096) × (right_gain ≤ 4096) }
    ensures sums { result ≡ added mono (left_gain, right_gain) (frame_at frames.now at) (sum_at sums.now at) ∷ added mono (left_gain, right_gain) (frame_at frames.now (at + 1)) (sum_at sums.now (at + 1)) ∷ [] }
    ensures heard { (IsHeard mono (frame_at frames.now at)) × (IsHeard mono (frame_at frames.now (at + 1))) }
{
    let next = at + 1;
    let left = i32::from(left_gain);
    let right = i32::from(right_gain);
    let samples = heard_pair(frames, mono, at);
    let parts = samples.strict_mul(i32x4::from_array([left, right, left, right]));
    let sides = i64x4::from_array([
        sums[at].left,
        sums[at].right,
        sums[next].left,
        sums[next].right,
    ])
    .strict_add(parts.cast::<i64>())
    .to_array();
    [
        Sum {
            left: sides[0],
            right: sides[1],
        },
        Sum {
            left: sides[2],
            right: sides[3],
        },
    ]
}

/// Stores two sums.
#[inline(always)]
fn store_two(two: [Sum; 2], at: usize, sums: &mut [Sum])
    requires inside { at + 2 ≤ length sums.old }
    ensures length { length sums.new ≡ length sums.old }
    ensures first { sum_at sums.new at ≡ sum_at two 0 }
    ensures second { sum_at sums.new (at + 1) ≡ sum_at two 1 }
    ensures same { (k : ℕ) → (k < at) ⊎ (at + 2 ≤ k) → sum_at sums.new k ≡ sum_at sums.old k }
{
    sums[at] = two[0];
    sums[at + 1] = two[1];
}

/// Four sums from a place on that is a multiple of four, each with one more frame. All four are computed before the first is stored, so that the frames are read once.
#[inline(always)]
fn add_four(frames: &[Frame], mono: bool, gains: Gains, at: usize, sums: &mut [Sum])
    requires lengths { length frames.now ≡ length sums.old }
    requires inside { (at % 4 ≡ 0) × (at + 4 ≤ length sums.old) }
    requires room { (k : ℕ) → k < 4 → IsWithin 31 (sum_at sums.old (at + k)) }
    ensures { (start : List Sum) → IsGrownTo at frames.now mono gains start sums.old → IsGrownTo (at + 4) frames.now mono gains start sums.new }
{
    let next = at + 2;
    let first = grown_two(frames, mono, gains.left(), gains.right(), sums, at);
    let second = grown_two(frames, mono, gains.left(), gains.right(), sums, next);
    store_two(first, at, sums);
    store_two(second, next, sums);
}

/// The sum at a place with one more frame.
fn add_one(frames: &[Frame], mono: bool, gains: Gains, at: usize, sums: &mut [Sum])
    requires lengths { length frames.now ≡ length sums.old }
    requires inside { at < length sums.old }
    requires room { IsWithin 31 (sum_at sums.old at) }
    ensures { (start : List Sum) → IsGrownTo at frames.now mono gains start sums.old → IsGrownTo (at + 1) frames.now mono gains start sums.new }
{
    sums[at] = grown_one(sums[at], frames[at], mono, gains.left(), gains.right());
}

/// Adds a take, sixteen sums at a time in lanes, as far as there are so many.
#[inline(always)]
fn add_sixteens(frames: &[Frame], mono: bool, gains: Gains, sums: &mut [Sum])
    requires lengths { length frames.now ≡ length sums.old }
    requires room { All (IsWithin 31) sums.old }
    ensures { IsGrownTo (length sums.old / 16 * 16) frames.now mono gains sums.old sums.new }
{
    for sixteen in 0..frames.len() / 16 {
        for four in 0..4 {
            add_four(frames, mono, gains, 16 * sixteen + 4 * four, sums);
        }
    }
}

/// Adds a take: sixteen sums at a time, then four, and the rest one by one.
#[inline(always)]
fn add_whole(frames: &[Frame], mono: bool, gains: Gains, sums: &mut [Sum])
    requires lengths { length frames.now ≡ length sums.old }
    requires room { All (IsWithin 31) sums.old }
    ensures { IsGrownTo (length sums.old) frames.now mono gains sums.old sums.new }
{
    add_sixteens(frames, mono, gains, sums);
    let whole = frames.len() / 16 * 16;
    for four in 0..frames.len() % 16 / 4 {
        add_four(frames, mono, gains, whole + 4 * four, sums);
    }
    for i in frames.len() / 4 * 4..frames.len() {
        add_one(frames, mono, gains, i, sums);
    }
}

/// Adds one take to the running sums (AOSP's AudioMixer, track by track): each side of each sum grows by sample times gain.
///
/// `frames` and `sums` have one length. Each side of each sum is at most 31 full takes away from 0, so that one more fits.
/// A mono frame gives its left sample to both sides, each with its own gain. It takes no memory and refuses nothing.
pub fn accumulate(frames: &[Frame], mono: bool, gains: Gains, sums: &mut [Sum])
    requires lengths { length frames.now ≡ length sums.old }
    requires room { All (IsWithin 31) sums.old }
    ensures sums { IsAccumulated frames.now mono gains sums.old sums.new }
    ensures bound { (takes : ℕ) → All (IsWithin takes) sums.old → All (IsWithin (takes + 1)) sums.new }
{
    if mono {
        add_whole(frames, true, gains, sums);
    } else {
        add_whole(frames, false, gains, sums);
    }
}
