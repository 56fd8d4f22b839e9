//! How the frames of one call are taken and mixed: in rows, each of which the kernel mixes at once.
ghost use Rattle.std.specs.Prelude.{◌≡◌, ◌+◌, ◌<◌, ◌≤◌, ℕ, true, if◌then◌else◌, [], length};
ghost use Rattle.af_static.specs.declared.head.Head.{Head};
ghost use Rattle.af_static.specs.Loops.{head_moved, loop_frames, output, IsSound};
ghost use Rattle.af_static.specs.Played.{IsDone, IsPlayedTo, IsSilentFrom};

use crate::head::Head;
use af_base::{Frame, Gains, Part};
use af_gain::{Sum, mix};

/// Mixes frames into as many places, as one take at unity scale.
fn mix_row(frames: &[Frame], gains: Gains, sums: &mut [Sum], out: &mut [Frame])
    requires lengths { (length frames.now ≡ length out.old) × (length out.old ≤ length sums.old) }
    ensures { out.new ≡ output gains frames.now (length out.old) }
{
    let part = Part {
        frames,
        mono: false,
        gains: u32::from(gains.left()) + 65536 * u32::from(gains.right()),
        scale: 0x1000,
    };
    mix(&[part], &mut sums[..out.len()], out);
}

/// Plays the next row to its place, and answers how many frames it has.
fn play_row(
    frames: &[Frame],
    head: &mut Head,
    gains: Gains,
    sums: &mut [Sum],
    at: usize,
    out: &mut [Frame],
) -> usize
    requires sound { IsSound (length frames.now) head.old }
    requires ahead { (head.old.position < length frames.now) × (at < length out.old) }
    requires sums { length out.old ≤ length sums.old }
    ensures sound { IsSound (length frames.now) head.new }
    ensures some { (0 < result) × (at + result ≤ length out.old) }
    ensures played { (first : Head) → IsPlayedTo at frames.now gains first (length out.old) head.old out.old → IsPlayedTo (at + result) frames.now gains first (length out.old) head.new out.new }
{
    let from = head.position;
    let run = head.row(frames.len(), out.len() - at);
    mix_row(
        &frames[from..from + run],
        gains,
        sums,
        &mut out[at..at + run],
    );
    *head = head.moved(run, frames.len());
    run
}

/// Silence in all places from one on.
fn silence_from(at: usize, out: &mut [Frame])
    requires { at ≤ length out.old }
    ensures { IsSilentFrom at out.old out.new }
{
    for i in at..out.len() {
        out[i] = Frame { left: 0, right: 0 };
    }
}

/// What is heard of no frames.
fn silence(out: &mut [Frame])
    ensures { (gains : ℕ × ℕ) → out.new ≡ output gains [] (length out.old) }
{
    silence_from(0, out);
}

/// Ends a call that has no places left, or whose head is at the end of the buffer.
fn finish(frames: &[Frame], head: Head, gains: Gains, at: usize, out: &mut [Frame])
    requires inside { at ≤ length out.old }
    requires ended { at < length out.old → length frames.now ≤ head.position }
    ensures { (first : Head) → IsPlayedTo at frames.now gains first (length out.old) head out.old → IsDone at frames.now gains first head (length out.old) out.new }
{
    silence_from(at, out);
}

/// Takes frames until there is no place left, or the head is at the end of the buffer, and mixes them. It answers how many were taken.
fn play(
    frames: &[Frame],
    head: &mut Head,
    gains: Gains,
    sums: &mut [Sum],
    out: &mut [Frame],
) -> usize
    requires sound { IsSound (length frames.now) head.old }
    requires sums { length out.old ≤ length sums.old }
    ensures out { out.new ≡ output gains (loop_frames frames.now head.old (length out.old)) (length out.old) }
    ensures filled { result ≡ length (loop_frames frames.now head.old (length out.old)) }
    ensures head { head.new ≡ head_moved (length frames.now) head.old (length out.old) }
    ensures sound { IsSound (length frames.now) head.new }
    ensures short { result < length out.old → head.new.position ≡ length frames.now }
    ensures most { result ≤ length out.old }
{
    let mut at = 0;
    while at < out.len() && head.position < frames.len() {
        at += play_row(frames, head, gains, sums, at, out);
    }
    finish(frames, *head, gains, at, out);
    at
}

/// Takes and mixes frames under a valid setting, and gives silence under another.
pub(crate) fn roll(
    frames: &[Frame],
    valid: bool,
    head: &mut Head,
    gains: Gains,
    sums: &mut [Sum],
    out: &mut [Frame],
) -> usize
    requires sound { IsSound (length frames.now) head.old }
    requires sums { length out.old ≤ length sums.old }
    ensures out { out.new ≡ output gains (if valid then loop_frames frames.now head.old (length out.old) else []) (length out.old) }
    ensures filled { result ≡ length (if valid then loop_frames frames.now head.old (length out.old) else []) }
    ensures head { head.new ≡ (if valid then head_moved (length frames.now) head.old (length out.old) else head.old) }
    ensures sound { IsSound (length frames.now) head.new }
    ensures short { result < length out.old → valid ≡ true → head.new.position ≡ length frames.now }
    ensures most { result ≤ length out.old }
{
    if valid {
        play(frames, head, gains, sums, out)
    } else {
        silence(out);
        0
    }
}
