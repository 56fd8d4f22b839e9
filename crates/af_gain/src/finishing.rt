ghost use Rattle.std.specs.Prelude.{◌≡◌, ◌<◌, ◌≤◌, ◌+◌, ◌*◌, ◌^◌, [], ◌∷◌, length, map, take, true, All, unsigned_abs};
ghost use Rattle.af_base.specs.Mix.{mixed_sample};
ghost use Rattle.af_gain.specs.Sums.{IsWithin, mixed_of, sum_at};

use crate::sums::Sum;
use af_base::Frame;
use std::simd::prelude::*;

/// A sum divided by unity, rounded down, as the nearest sample.
fn mixed(sum: i64) -> i16
    ensures { result ≡ mixed_sample sum }
{
    (sum >> 12).clamp(-32768, 32767) as i16
}

/// The frames that the sum at a place and the next one are mixed to, in lanes.
#[inline(always)]
fn mixed_two(sums: &[Sum], at: usize) -> [Frame; 2]
    requires inside { at + 2 ≤ length sums.now }
    requires small { (IsWithin 32 (sum_at sums.now at)) × (IsWithin 32 (sum_at sums.now (at + 1))) }
    ensures { result ≡ mixed_of (sum_at sums.now at) ∷ mixed_of (sum_at sums.now (at + 1)) ∷ [] }
{
    let next = at + 1;
    let sides = i64x4::from_array([
        sums[at].left,
        sums[at].right,
        sums[next].left,
        sums[next].right,
    ]);
    let whole = (sides >> 12).cast::<i32>();
    let samples = whole
        .simd_clamp(i32x4::splat(-32768), i32x4::splat(32767))
        .cast::<i16>()
        .to_array();
    [
        Frame {
            left: samples[0],
            right: samples[1],
        },
        Frame {
            left: samples[2],
            right: samples[3],
        },
    ]
}

/// Writes the frames at a place and behind it.
#[inline(always)]
fn finish_two(sums: &[Sum], at: usize, out: &mut [Frame])
    requires lengths { length sums.now ≡ length out.old }
    requires inside { at + 2 ≤ length sums.now }
    requires small { All (IsWithin 32) sums.now }
    ensures { take at out.old ≡ map mixed_of (take at sums.now) → take (at + 2) out.new ≡ map mixed_of (take (at + 2) sums.now) }
{
    let two = mixed_two(sums, at);
    out[at] = two[0];
    out[at + 1] = two[1];
}

/// Writes the frame at a place.
#[inline(always)]
fn finish_one(sums: &[Sum], at: usize, out: &mut [Frame])
    requires lengths { length sums.now ≡ length out.old }
    requires inside { at < length sums.now }
    ensures { take at out.old ≡ map mixed_of (take at sums.now) → take (at + 1) out.new ≡ map mixed_of (take (at + 1) sums.now) }
{
    out[at] = Frame {
        left: mixed(sums[at].left),
        right: mixed(sums[at].right),
    };
}

/// Finishes the sums of at most 32 takes, eight at a time in lanes, and the rest one by one.
pub(crate) fn finish_small(sums: &[Sum], out: &mut [Frame])
    requires lengths { length sums.now ≡ length out.old }
    requires small { All (IsWithin 32) sums.now }
    ensures { out.new ≡ map mixed_of sums.now }
{
    for eight in 0..sums.len() / 8 {
        for two in 0..4 {
            finish_two(sums, 8 * eight + 2 * two, out);
        }
    }
    for i in sums.len() / 8 * 8..sums.len() {
        finish_one(sums, i, out);
    }
}

/// Whether a side is no further from 0 than 32 takes bring it.
fn is_small(side: i64) -> bool
    ensures { result ≡ true → unsigned_abs side ≤ 32 * 2 ^ 27 }
{
    (-0x1_0000_0000 <= side) & (side <= 0x1_0000_0000)
}

/// Whether each side is no further from 0 than 32 takes bring it.
fn are_small(sums: &[Sum]) -> bool
    ensures { result ≡ true → All (IsWithin 32) sums.now }
{
    let mut small = true;
    for sum in sums {
        small = small & is_small(sum.left) & is_small(sum.right);
    }
    small
}

/// Turns the running sums into frames: each side is divided by unity, rounded down and clamped to 16 bits, once.
///
/// `sums` and `out` have one length. It takes no memory and refuses nothing.
pub fn finish(sums: &[Sum], out: &mut [Frame])
    requires { length sums.now ≡ length out.old }
    ensures { out.new ≡ map mixed_of sums.now }
{
    if are_small(sums) {
        finish_small(sums, out);
    } else {
        for i in 0..sums.len() {
            finish_one(sums, i, out);
        }
    }
}
