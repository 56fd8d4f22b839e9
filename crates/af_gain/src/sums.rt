ghost use Rattle.std.specs.Prelude.{◌≡◌, ◌≤◌, ◌+◌, ◌*◌, ◌^◌, pos, ◌+ℤ◌, ◌*ℤ◌, unsigned_abs};
ghost use Rattle.af_base.specs.Gain.{gains_used};
ghost use Rattle.af_base.specs.Mix.{right_sample};
ghost use Rattle.af_gain.specs.Sums.{IsWithin, IsHeard, added};

use af_base::{Frame, Gains};

/// The running sums of one position: for each side the sum of sample times gain, in units of a sample divided by unity.
#[derive(Clone, Copy, Debug, PartialEq, Eq)]
pub struct Sum {
    pub left: i64,
    pub right: i64,
}

/// A mono frame gives its left sample to both sides.
fn right_of(frame: Frame, mono: bool) -> i16
    ensures { result ≡ right_sample mono frame }
{
    if mono { frame.left } else { frame.right }
}

/// One side of a sum with one more sample.
fn grown(side: i64, sample: i16, gain: u16) -> i64
    requires room { unsigned_abs side ≤ 31 * 2 ^ 27 }
    requires unity { gain ≤ 4096 }
    ensures { result ≡ side +ℤ sample *ℤ pos gain }
{
    side + i64::from(sample) * i64::from(gain)
}

/// A sum with one more frame.
pub(crate) fn grown_one(sum: Sum, frame: Frame, mono: bool, left_gain: u16, right_gain: u16) -> Sum
    requires room { IsWithin 31 sum }
    requires unity { (left_gain ≤ 4096) × (right_gain ≤ 4096) }
    ensures sum { result ≡ added mono (left_gain, right_gain) frame sum }
    ensures samples { IsHeard mono frame }
{
    Sum {
        left: grown(sum.left, frame.left, left_gain),
        right: grown(sum.right, right_of(frame, mono), right_gain),
    }
}

/// The gains that a gain word gives at a scale.
pub(crate) fn gains_of(word: u32, scale: u16) -> Gains
    requires { scale ≤ 4096 }
    ensures { result ≡ gains_used word scale }
{
    Gains::clamped(word).scaled(scale)
}
