//! Up to 15 takes, sixteen positions at a time, in sums of 32 bits: 15 full takes lie within 15 * 2^27 of 0.
ghost use Rattle.std.specs.Prelude.{◌≡◌, ◌<◌, ◌≤◌, ◌+◌, ◌^◌, ℕ, List, [], ◌∷◌, ◌++◌, length, map, All};
ghost use Rattle.af_base.specs.Gain.{gains_used};
ghost use Rattle.af_base.specs.Part.{take_of};
ghost use Rattle.af_base.specs.Mix.{Take, mix, frame_at, mixed_frame};
ghost use Rattle.af_gain.specs.declared.sums.Sum.{Sum};
ghost use Rattle.af_gain.specs.Sums.{IsWithin, IsHeard, added, mixed_of};
ghost use Rattle.af_gain.specs.Narrow.{gain_lanes, lanes_of, AreFrom, AreGainsOf, AreMixedTo, IsHeardAs};
ghost use Rattle.af_gain.specs.Eight.{AreEightOf, AreSixteenOf};

use crate::adding::heard_two;
use crate::sums::gains_of;
use af_base::{Frame, Gains, Part};
use std::simd::prelude::*;

/// The sums of eight positions, two in each vector: left, right, left, right.
#[derive(Clone, Copy)]
pub(crate) struct Eight {
    first: i32x4,
    second: i32x4,
    third: i32x4,
    fourth: i32x4,
}

/// The sums of sixteen positions.
#[derive(Clone, Copy)]
pub(crate) struct Sixteen {
    low: Eight,
    high: Eight,
}

/// The gains of each take at its scale.
fn gains_of_each(parts: &[Part<'_>]) -> [Gains; 15]
    requires few { length parts.now ≤ 15 }
    requires fits { All (λ part. part.scale ≤ 4096) parts.now }
    ensures { AreGainsOf (length parts.now) parts.now result }
{
    let mut gains = [Gains::clamped(0); 15];
    for i in 0..parts.len() {
        gains[i] = gains_of(parts[i].gains, parts[i].scale);
    }
    gains
}

/// Gains as they meet the lanes.
#[inline(always)]
fn gain_lanes(gains: Gains) -> i32x4
    ensures { result ≡ gain_lanes gains }
{
    let left = i32::from(gains.left());
    let right = i32::from(gains.right());
    i32x4::from_array([left, right, left, right])
}

/// Two sums, each with one more frame. Lanes of `+` wrap, and sums of at most 14 takes are too small for that.
#[inline(always)]
fn with_two(sums: i32x4, frames: &[Frame], at: usize, mono: bool, gains: Gains) -> i32x4
    requires { at + 2 ≤ length frames.now }
    ensures lanes { (first second : Sum) → IsWithin 14 first → IsWithin 14 second → sums ≡ lanes_of first second → result ≡ lanes_of (added mono gains (frame_at frames.now at) first) (added mono gains (frame_at frames.now (at + 1)) second) }
    ensures heard { (IsHeard mono (frame_at frames.now at)) × (IsHeard mono (frame_at frames.now (at + 1))) }
{
    sums + heard_two(frames, mono, at).strict_mul(gain_lanes(gains))
}

/// Eight sums, each with one more frame.
#[inline(always)]
fn with_eight(sums: Eight, frames: &[Frame], mono: bool, gains: Gains) -> Eight
    requires { 8 ≤ length frames.now }
    ensures { (takes : List Take) (t : Take) (at : ℕ) → length takes < 15 → IsHeardAs t at frames.now mono gains → AreEightOf takes at sums → AreEightOf (takes ++ t ∷ []) at result }
{
    Eight {
        first: with_two(sums.first, frames, 0, mono, gains),
        second: with_two(sums.second, frames, 2, mono, gains),
        third: with_two(sums.third, frames, 4, mono, gains),
        fourth: with_two(sums.fourth, frames, 6, mono, gains),
    }
}

/// Eight sums, each with one more frame, by code of its own for mono.
#[inline(always)]
fn with_frames(sums: Eight, frames: &[Frame], mono: bool, gains: Gains) -> Eight
    requires { 8 ≤ length frames.now }
    ensures { (takes : List Take) (t : Take) (at : ℕ) → length takes < 15 → IsHeardAs t at frames.now mono gains → AreEightOf takes at sums → AreEightOf (takes ++ t ∷ []) at result }
{
    if mono {
        with_eight(sums, frames, true, gains)
    } else {
        with_eight(sums, frames, false, gains)
    }
}

/// Sixteen sums, each with one more frame, by code of its own for mono.
#[inline(always)]
fn with_sixteen(sums: Sixteen, low: &[Frame], high: &[Frame], mono: bool, gains: Gains) -> Sixteen
    requires { (8 ≤ length low.now) × (8 ≤ length high.now) }
    ensures { (takes : List Take) (t : Take) (at : ℕ) → length takes < 15 → IsHeardAs t at low.now mono gains → IsHeardAs t (at + 8) high.now mono gains → AreSixteenOf takes at sums → AreSixteenOf (takes ++ t ∷ []) at result }
{
    if mono {
        Sixteen {
            low: with_eight(sums.low, low, true, gains),
            high: with_eight(sums.high, high, true, gains),
        }
    } else {
        Sixteen {
            low: with_eight(sums.low, low, false, gains),
            high: with_eight(sums.high, high, false, gains),
        }
    }
}

/// Eight frames from a place on. If the take ends before, silence follows.
fn padded(frames: &[Frame], at: usize) -> [Frame; 8]
    ensures { AreFrom frames.now at result }
{
    let mut eight = [Frame { left: 0, right: 0 }; 8];
    for k in 0..frames.len().saturating_sub(at).min(8) {
        eight[k] = frames[at + k];
    }
    eight
}

/// Eight sums with one more take.
#[inline(always)]
fn with_take(sums: Eight, part: Part<'_>, gains: Gains, at: usize) -> Eight
    requires gains { gains ≡ gains_used part.gains part.scale }
    requires unity { part.scale ≤ 4096 }
    ensures { (takes : List Take) → length takes < 15 → AreEightOf takes at sums → AreEightOf (takes ++ take_of part.entry ∷ []) at result }
{
    if part.frames.len().saturating_sub(at) >= 8 {
        with_frames(sums, &part.frames[at..at + 8], part.mono, gains)
    } else {
        with_frames(sums, &padded(part.frames, at), part.mono, gains)
    }
}

/// Sixteen sums with one more take.
#[inline(always)]
fn with_whole(sums: Sixteen, part: Part<'_>, gains: Gains, at: usize) -> Sixteen
    requires gains { gains ≡ gains_used part.gains part.scale }
    requires unity { part.scale ≤ 4096 }
    requires few { at < 2 ^ 63 }
    ensures { (takes : List Take) → length takes < 15 → AreSixteenOf takes at sums → AreSixteenOf (takes ++ take_of part.entry ∷ []) at result }
{
    if at + 16 <= part.frames.len() {
        let low = &part.frames[at..at + 8];
        let high = &part.frames[at + 8..at + 16];
        with_sixteen(sums, low, high, part.mono, gains)
    } else {
        Sixteen {
            low: with_take(sums.low, part, gains, at),
            high: with_take(sums.high, part, gains, at + 8),
        }
    }
}

/// Sums of no take.
#[inline(always)]
fn no_sums() -> Eight
    ensures { (at : ℕ) → AreEightOf [] at result }
{
    let none = i32x4::from_array([0, 0, 0, 0]);
    Eight {
        first: none,
        second: none,
        third: none,
        fourth: none,
    }
}

/// The sums of all takes at eight positions.
#[inline(always)]
fn eight_sums(parts: &[Part<'_>], gains: &[Gains; 15], at: usize) -> Eight
    requires few { length parts.now ≤ 15 }
    requires fits { All (λ part. part.scale ≤ 4096) parts.now }
    requires gains { AreGainsOf (length parts.now) parts.now gains.now }
    ensures { AreEightOf (map take_of parts.now) at result }
{
    let mut sums = no_sums();
    for i in 0..parts.len() {
        sums = with_take(sums, parts[i], gains[i], at);
    }
    sums
}

/// The sums of all takes at sixteen positions.
#[inline(always)]
fn sixteen_sums(parts: &[Part<'_>], gains: &[Gains; 15], at: usize) -> Sixteen
    requires few { length parts.now ≤ 15 }
    requires fits { All (λ part. part.scale ≤ 4096) parts.now }
    requires gains { AreGainsOf (length parts.now) parts.now gains.now }
    requires place { at < 2 ^ 63 }
    ensures { AreSixteenOf (map take_of parts.now) at result }
{
    let none = no_sums();
    let mut sums = Sixteen {
        low: none,
        high: none,
    };
    for i in 0..parts.len() {
        sums = with_whole(sums, parts[i], gains[i], at);
    }
    sums
}

/// The frames that two sums are mixed to.
#[inline(always)]
fn mixed_lanes(sums: i32x4) -> [Frame; 2]
    ensures { (first second : Sum) → IsWithin 15 first → IsWithin 15 second → sums ≡ lanes_of first second → result ≡ mixed_of first ∷ mixed_of second ∷ [] }
{
    let samples = (sums >> 12)
        .simd_clamp(i32x4::splat(-32768), i32x4::splat(32767))
        .cast::<i16>()
        .to_array();
    [
        Frame {
            left: samples[0],
            right: samples[1],
        },
        Frame {
            left: samples[2],
            right: samples[3],
        },
    ]
}

/// The frames that eight sums are mixed to.
#[inline(always)]
fn mixed_eight(sums: Eight) -> [Frame; 8]
    ensures { (takes : List Take) (at : ℕ) → length takes ≤ 15 → AreEightOf takes at sums → (k : ℕ) → k < 8 → frame_at result k ≡ mixed_frame takes (at + k) }
{
    let first = mixed_lanes(sums.first);
    let second = mixed_lanes(sums.second);
    let third = mixed_lanes(sums.third);
    let fourth = mixed_lanes(sums.fourth);
    [
        first[0], first[1], second[0], second[1], third[0], third[1], fourth[0], fourth[1],
    ]
}

/// Writes the frames that eight sums are mixed to, or the first so many of them.
#[inline(always)]
fn write_eight(sums: Eight, at: usize, count: usize, out: &mut [Frame])
    requires inside { (count ≤ 8) × (at + count ≤ length out.old) }
    ensures { (takes : List Take) → length takes ≤ 15 → AreEightOf takes at sums → AreMixedTo at takes out.old → AreMixedTo (at + count) takes out.new }
{
    let frames = mixed_eight(sums);
    for k in 0..count {
        out[at + k] = frames[k];
    }
}

/// Writes the mix of the takes at up to eight positions.
#[inline(always)]
fn mix_eight(parts: &[Part<'_>], gains: &[Gains; 15], at: usize, count: usize, out: &mut [Frame])
    requires few { length parts.now ≤ 15 }
    requires fits { All (λ part. part.scale ≤ 4096) parts.now }
    requires gains { AreGainsOf (length parts.now) parts.now gains.now }
    requires inside { (count ≤ 8) × (at + count ≤ length out.old) }
    ensures { AreMixedTo at (map take_of parts.now) out.old → AreMixedTo (at + count) (map take_of parts.now) out.new }
{
    write_eight(eight_sums(parts, gains, at), at, count, out);
}

/// Writes the mix of the takes at sixteen positions.
#[inline(always)]
fn mix_sixteen(parts: &[Part<'_>], gains: &[Gains; 15], at: usize, out: &mut [Frame])
    requires few { length parts.now ≤ 15 }
    requires fits { All (λ part. part.scale ≤ 4096) parts.now }
    requires gains { AreGainsOf (length parts.now) parts.now gains.now }
    requires inside { at + 16 ≤ length out.old }
    ensures { AreMixedTo at (map take_of parts.now) out.old → AreMixedTo (at + 16) (map take_of parts.now) out.new }
{
    let sums = sixteen_sums(parts, gains, at);
    write_eight(sums.low, at, 8, out);
    write_eight(sums.high, at + 8, 8, out);
}

/// Writes the mix of the takes from a place on, at fewer than sixteen positions.
fn mix_rest(parts: &[Part<'_>], gains: &[Gains; 15], at: usize, out: &mut [Frame])
    requires few { length parts.now ≤ 15 }
    requires fits { All (λ part. part.scale ≤ 4096) parts.now }
    requires gains { AreGainsOf (length parts.now) parts.now gains.now }
    requires inside { (at ≤ length out.old) × (length out.old < at + 16) }
    ensures { AreMixedTo at (map take_of parts.now) out.old → AreMixedTo (length out.old) (map take_of parts.now) out.new }
{
    let left = out.len() - at;
    let first = left.min(8);
    if first > 0 {
        mix_eight(parts, gains, at, first, out);
    }
    if left > 8 {
        mix_eight(parts, gains, at + 8, left - 8, out);
    }
}

/// Mixes up to 15 takes into `out`.
pub(crate) fn mix_narrow(parts: &[Part<'_>], out: &mut [Frame])
    requires few { length parts.now ≤ 15 }
    requires fits { All (λ part. part.scale ≤ 4096) parts.now }
    ensures { out.new ≡ mix (map take_of parts.now) (length out.old) }
{
    let gains = gains_of_each(parts);
    for sixteen in 0..out.len() / 16 {
        mix_sixteen(parts, &gains, 16 * sixteen, out);
    }
    mix_rest(parts, &gains, out.len() / 16 * 16, out);
}
