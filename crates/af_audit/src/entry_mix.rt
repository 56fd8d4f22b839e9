//! The mix of an entry from the takes that are heard: a slot that took no frames is silent, and the kernel isn't asked for it.
ghost use Rattle.std.specs.Prelude.{◌≡◌, ℕ, ◌+◌, ◌<◌, ◌≤◌, ◌++◌, length, map, take, drop, slice_index_or};
ghost use Rattle.std.specs.Int.{bit_at};
ghost use Rattle.af_base.specs.Log.{slots, count_seen, entry_slot, slot_take, takes_of};
ghost use Rattle.af_base.specs.Mix.{mix};
ghost use Rattle.af_base.specs.Part.{take_of};
ghost use Rattle.af_audit.specs.HeardTakes.{heard_takes};

use af_base::{CycleEntry, Frame, Part, SLOTS};
use af_gain::{Sum, mix};

// So many frames from a place on, or as many of them as there are.
fn frames_from(frames: &[Frame], first: usize, count: usize) -> &[Frame]
    ensures { result.now ≡ take count (drop first frames.now) }
{
    let rest = &frames[first.min(frames.len())..];
    &rest[..count.min(rest.len())]
}

// What a slot of an entry gives to the mix.
fn slot_part<'a>(frames: &'a [Frame], entry: &CycleEntry, slot: usize) -> Part<'a>
    requires { slot < slots }
    ensures { take_of result ≡ slot_take frames.now entry.now slot }
{
    let taken = &entry.slots[slot];
    Part {
        frames: frames_from(frames, taken.first, taken.seen.count() as usize),
        mono: (entry.mono >> slot) & 1 == 1,
        gains: taken.gains,
        scale: entry.scales[slot],
    }
}

// Puts what a slot gives behind the first parts, if it took frames, and answers how many there are then.
fn add_heard<'a>(
    parts: &mut [Part<'a>; SLOTS],
    heard: usize,
    frames: &'a [Frame],
    entry: &CycleEntry,
    slot: usize,
) -> usize
    requires slot { (heard ≤ slot) × (slot < slots) }
    ensures few { result ≤ slot + 1 }
    ensures takes { map take_of (take result parts.new) ≡ map take_of (take heard parts.old) ++ heard_takes frames.now entry.now slot 1 }
{
    if entry.slots[slot].seen.count() == 0 {
        return heard;
    }
    parts[heard] = slot_part(frames, entry, slot);
    heard + 1
}

/// Writes the mix of an entry, from the frames of its log.
///
/// `sums` is scratch room of `out`'s length.
pub(crate) fn mix_heard(frames: &[Frame], entry: &CycleEntry, sums: &mut [Sum], out: &mut [Frame])
    requires lengths { length sums.old ≡ length out.old }
    requires within { (i : ℕ) → i < slots → count_seen (entry_slot entry.now i).seen ≤ length out.old }
    requires scaled { (i : ℕ) → i < slots → slice_index_or entry.now.scales i 0 ≤ 4096 }
    ensures { out.new ≡ mix (takes_of frames.now entry.now) (length out.old) }
{
    let silent = Part {
        frames: &[],
        mono: false,
        gains: 0,
        scale: 0,
    };
    let mut parts = [silent; SLOTS];
    let mut heard = 0;
    for slot in 0..SLOTS {
        heard = add_heard(&mut parts, heard, frames, entry, slot);
    }
    mix(&parts[..heard], sums, out);
}
