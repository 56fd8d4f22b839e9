//! What a turn took is mixed.
ghost use Rattle.std.specs.Prelude.{◌≡◌, ◌<◌, ◌≤◌, length, map, All};
ghost use Rattle.af_base.specs.Part.{take_of as take_of_part};
ghost use Rattle.af_base.specs.Turn.{take_seen};
ghost use Rattle.af_life.specs.Kept.{Setup, asked};
ghost use Rattle.af_life.specs.Plays.{take_of, put_by};
ghost use Rattle.af_normal.specs.Sums.{Fits};

use af_base::{Frame, NormalTake, Part};
use af_gain::{Sum, mix};
use af_life::Setting;

/// How many takes are mixed at most: one of each track.
const MOST_TAKES: usize = 32;

/// What a take gives to the mix, by the setting of its track.
fn part_of<'a>(take: &'a NormalTake, settings: &[Setting]) -> Part<'a>
    requires track { take.now.track < length settings.now }
    ensures { (c : Setup) → c.settings ≡ settings.now → take_of_part result ≡ take_of c (take_seen take.now) }
{
    let setting = settings[take.track as usize];
    Part {
        frames: take.frames.as_slice(),
        mono: setting.mono,
        gains: take.slot.gains,
        scale: setting.scale,
    }
}

/// Mixes the takes of a turn, each at the scale of its track, into a buffer.
///
/// `sums` is scratch room of the buffer's length. It takes no memory and refuses nothing.
pub(crate) fn mix_takes(
    takes: &[NormalTake],
    settings: &[Setting],
    sums: &mut [Sum],
    out: &mut [Frame],
)
    requires some { (1 ≤ length takes.now) × (length takes.now ≤ 32) }
    requires fit { All (Fits (length out.old) (length settings.now)) takes.now }
    requires scales { All (λ setting. setting.scale ≤ 4096) settings.now }
    requires lengths { length sums.old ≡ length out.old }
    ensures { (c : Setup) → c.settings ≡ settings.now → asked c ≡ length out.old → out.new ≡ put_by c (map take_seen takes.now) }
{
    let mut parts = [part_of(&takes[0], settings); MOST_TAKES];
    for i in 1..takes.len() {
        parts[i] = part_of(&takes[i], settings);
    }
    mix(&parts[..takes.len()], sums, out);
}
