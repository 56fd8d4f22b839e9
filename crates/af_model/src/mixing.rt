//! The mix of one entry of a log.
ghost use Rattle.std.specs.Prelude.{◌≡◌, ◌<◌, ◌&&◌, ◌==◌, true, map, length, take, drop};
ghost use Rattle.std.specs.Int.{bit_at};
ghost use Rattle.af_base.specs.Log.{slots, entry_at, slot_take, takes_of};
ghost use Rattle.af_base.specs.Mix.{mix};
ghost use Rattle.af_base.specs.Part.{take_of};
ghost use Rattle.af_model.specs.Cycles.{is_mixed};

use af_base::{CycleEntry, FastLog, Frame, Part, SLOTS, plain_frame};

// So many frames from a place on, or as many of them as there are.
fn frames_from(frames: &[Frame], first: usize, count: usize) -> &[Frame]
    ensures { result.now ≡ take count (drop first frames.now) }
{
    let rest = &frames[first.min(frames.len())..];
    &rest[..count.min(rest.len())]
}

// What a slot of an entry gives to the mix.
fn slot_part<'a>(frames: &'a [Frame], entry: &CycleEntry, slot: usize) -> Part<'a>
    requires { slot < slots }
    ensures { take_of result ≡ slot_take frames.now entry.now slot }
{
    let seen = entry.slots[slot];
    Part {
        frames: frames_from(frames, seen.first, seen.seen.count() as usize),
        mono: (entry.mono >> slot) & 1 == 1,
        gains: seen.gains,
        scale: entry.scales[slot],
    }
}

/// What each slot of an entry gives to the mix, from the frames of its log. A slot that took no frames gives none.
pub fn parts_of<'a>(frames: &'a [Frame], entry: &CycleEntry) -> [Part<'a>; SLOTS]
    ensures { map take_of result ≡ takes_of frames.now entry.now }
{
    let mut parts = [slot_part(frames, entry, 0); SLOTS];
    for slot in 1..SLOTS {
        parts[slot] = slot_part(frames, entry, slot);
    }
    parts
}

// Writes the mix of some parts, frame by frame.
fn mix_plainly(parts: &[Part<'_>], out: &mut [Frame])
    ensures { out.new ≡ mix (map take_of parts.now) (length out.old) }
{
    for at in 0..out.len() {
        out[at] = plain_frame(parts, at);
    }
}

/// The mix of a Mixed entry by its definition, plain and slow: each of its frames is the clamped sum of what the entry's slots took, each at its gains and scale. Missing frames are silence. It takes no memory and refuses nothing.
pub fn mix_entry(log: &FastLog, index: usize, out: &mut [Frame])
    requires there { index < length log.now.entries }
    requires mixed { is_mixed (entry_at log.now.entries index).cycle ≡ true }
    ensures { out.new ≡ mix (takes_of log.now.frames (entry_at log.now.entries index)) (length out.old) }
{
    let Some(entry) = log.entry(index) else {
        unreachable!()
    };
    mix_plainly(&parts_of(log.frames(), entry), out);
}
