ghost use Rattle.std.specs.Prelude.{◌≡◌, ◌≤◌, ◌+◌, ℕ, [], length, map, All};
ghost use Rattle.af_base.specs.Part.{take_of};
ghost use Rattle.af_base.specs.Mix.{mix};
ghost use Rattle.af_gain.specs.Sums.{IsWithin, IsAccumulated, AreSumsOf};

use crate::adding::accumulate;
use crate::finishing::finish_small;
use crate::narrow::mix_narrow;
use crate::sums::{Sum, gains_of};
use af_base::{Frame, Gains, Part};

/// Adds a take that may end early.
fn add_part(frames: &[Frame], mono: bool, gains: Gains, sums: &mut [Sum])
    requires lengths { length frames.now ≤ length sums.old }
    requires room { All (IsWithin 31) sums.old }
    ensures sums { IsAccumulated frames.now mono gains sums.old sums.new }
    ensures bound { (takes : ℕ) → All (IsWithin takes) sums.old → All (IsWithin (takes + 1)) sums.new }
{
    accumulate(frames, mono, gains, &mut sums[..frames.len()]);
}

/// Sums of no take.
fn clear(sums: &mut [Sum])
    ensures zero { AreSumsOf [] sums.new }
    ensures bound { All (IsWithin 0) sums.new }
{
    for i in 0..sums.len() {
        sums[i] = Sum { left: 0, right: 0 };
    }
}

/// Adds up to 32 takes up.
fn sum_up(parts: &[Part<'_>], sums: &mut [Sum])
    requires few { length parts.now ≤ 32 }
    requires fits { All (λ part. (length part.frames.now ≤ length sums.old) × (part.scale ≤ 4096)) parts.now }
    ensures sums { AreSumsOf (map take_of parts.now) sums.new }
    ensures bound { All (IsWithin 32) sums.new }
{
    clear(sums);
    for part in parts {
        add_part(
            part.frames,
            part.mono,
            gains_of(part.gains, part.scale),
            sums,
        );
    }
}

/// Mixes up to 32 takes into `out`: no take is longer, and each 4.12 scale is at most unity.
///
/// `sums` is scratch room of `out`'s length: what it holds is not looked at, and what it holds afterwards is open.
/// It takes no memory and refuses nothing.
pub fn mix(parts: &[Part<'_>], sums: &mut [Sum], out: &mut [Frame])
    requires few { length parts.now ≤ 32 }
    requires lengths { length sums.old ≡ length out.old }
    requires fits { All (λ part. (length part.frames.now ≤ length sums.old) × (part.scale ≤ 4096)) parts.now }
    ensures { out.new ≡ mix (map take_of parts.now) (length out.old) }
{
    if parts.len() < 16 {
        mix_narrow(parts, out);
    } else {
        sum_up(parts, sums);
        finish_small(sums, out);
    }
}
