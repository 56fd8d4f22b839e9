//! The entries of the fast mixer are read.
ghost use Rattle.std.specs.Prelude.{◌≡◌, ◌+◌, ◌*◌, ◌^◌, ◌<◌, ◌≤◌, ◌++◌, ◌∷◌, ◌==◌, true, List, length, flat_map, All, IfOk, IfSome, [], slice_index_or};
ghost use Rattle.std.specs.Int.{bit_at};
ghost use Rattle.af_base.specs.Log.{entry_slot, kind_of, slots};
ghost use Rattle.af_model.specs.Cycles.{place_of, still_entry};
ghost use Rattle.af_model.specs.Journals.{EntrySeen};
ghost use Rattle.af_journal.specs.Lines.{numbers};
ghost use Rattle.af_journal.specs.Mixes.{AreGots, IsGot, SlotGot, frames_in, got_lines, got_of, mix_entry};
ghost use Rattle.af_journal.specs.Ranges.{IsLine};
ghost use Rattle.af_journal.specs.Stages.{is_submix};
ghost use Rattle.af_journal.specs.Taken.{AddsEntries, AddsEntry, Leaves, more_lines};
ghost use Rattle.af_journal.specs.Texts.{each_from, entry_lines, fast_lines};
ghost use Rattle.af_model.specs.Reports.{one_if};

use crate::left::{Left, Stop, next_line, read_frames};
use crate::line::Line;
use crate::stage::is_submix;
use af_base::{Cycle, CycleEntry, Frame, SLOTS, Seen, SlotEntry};
use std::alloc::Global;

/// The entries read so far, with the frames that they took.
#[derive(Drop)]
pub(crate) struct Taken {
    pub entries: Vec<CycleEntry>,
    pub frames: Vec<Frame>,
}

// What a slot of a mix read and saw.
#[derive(Clone, Copy)]
struct SlotRead {
    slot: SlotEntry,
    scale: u16,
    mono: bool,
}

// A slot that isn't of the mask.
const ABSENT: SlotEntry = SlotEntry {
    gains: 0,
    flush: 0,
    rear: 0,
    seen: Seen::Absent,
    first: 0,
};

// An entry of no slots.
fn still_entry(state: u64, cycle: Cycle) -> CycleEntry
    ensures { result ≡ still_entry state cycle }
{
    CycleEntry {
        state,
        cycle,
        slots: [ABSENT; SLOTS],
        scales: [0; SLOTS],
        mono: 0,
    }
}

// The place of a slot's frames, which is 0 if it took none.
fn place_of(place: usize, seen: Seen) -> usize
    ensures { result ≡ place_of place seen }
{
    if seen.count() == 0 { 0 } else { place }
}

// Whether the line that stands first may be that of a slot, by its mark and the number of the slot. Most slots of a mix have no line, and no line is read for them.
fn may_be_of(bytes: &[u8], slot: usize) -> bool {
    match bytes {
        [b'z', b' ', digit, b' ', ..] => usize::from(digit.wrapping_sub(b'0')) == slot,
        [b'z', b' ', first, second, ..] => {
            let tens = usize::from(first.wrapping_sub(b'0'));
            tens * 10 + usize::from(second.wrapping_sub(b'0')) == slot
        }
        _ => false,
    }
}

// A slot of a mix, which is absent if it has no line; its frames are added.
fn read_slot(
    alloc: Global,
    left: &mut Left<'_>,
    frames: &mut Vec<Frame>,
    slot: usize,
) -> Result<SlotRead, Stop>
    ensures { IfOk result (λ got. (taken : List Frame) × IsGot (length frames.old.items) (got_of got taken) × (frames.new.items ≡ frames.old.items ++ taken) × Leaves left.old.rest.now (got_lines slot (got_of got taken)) left.new.rest.now) }
{
    match next_line(left.rest) {
        Some(
            (
                Line::Slot {
                    slot: own,
                    scale,
                    mono,
                    gains,
                    flush,
                    rear,
                    seen,
                },
                after,
            ),
        ) if own as usize == slot => {
            left.rest = after;
            let first = place_of(frames.len(), seen);
            let taken = read_frames(alloc, left, seen.count())?;
            frames.extend_from_slice(taken.as_slice())?;
            let slot = SlotEntry {
                gains,
                flush,
                rear,
                seen,
                first,
            };
            Ok(SlotRead { slot, scale, mono })
        }
        _ => Ok(SlotRead {
            slot: ABSENT,
            scale: 0,
            mono: false,
        }),
    }
}

// Whether the first slot of a mix is the submix.
fn has_submix(entry: &CycleEntry) -> bool
    ensures { result ≡ is_submix (slice_index_or entry.now.scales 0 0) (bit_at entry.now.mono 0 == 1) (entry_slot entry.now 0).gains (entry_slot entry.now 0).flush (entry_slot entry.now 0).seen }
{
    let slot = entry.slots[0];
    is_submix(
        entry.scales[0],
        entry.mono & 1 == 1,
        slot.gains,
        slot.flush,
        slot.seen,
    )
}

// The marks of one slot more.
fn with_mark(mono: u32, slot: usize, mark: bool) -> u32
    requires slot { slot < slots }
    requires below { mono < 2 ^ slot }
    ensures { result ≡ mono + one_if mark * 2 ^ slot }
{
    mono + (u32::from(mark) << slot)
}

// The slots of a mix by a state; their frames are added.
fn read_slots(
    alloc: Global,
    left: &mut Left<'_>,
    frames: &mut Vec<Frame>,
    state: u64,
) -> Result<CycleEntry, Stop>
    ensures { IfOk result (λ entry. (gots : List SlotGot) × (length gots ≡ slots) × AreGots (length frames.old.items) gots × (entry ≡ mix_entry state gots) × (frames.new.items ≡ frames.old.items ++ frames_in gots) × Leaves left.old.rest.now (each_from got_lines 0 gots) left.new.rest.now) }
{
    let mut entry = still_entry(state, Cycle::Mixed);
    for slot in 0..SLOTS {
        if may_be_of(left.rest, slot) {
            let got = read_slot(alloc, left, frames, slot)?;
            entry.slots[slot] = got.slot;
            entry.scales[slot] = got.scale;
            entry.mono = with_mark(entry.mono, slot, got.mono);
        }
    }
    Ok(entry)
}

// A mix by a state, after its line; its frames are added.
fn read_mix(
    alloc: Global,
    left: &mut Left<'_>,
    frames: &mut Vec<Frame>,
    state: u64,
) -> Result<CycleEntry, Stop>
    ensures state { IfOk result (λ entry. (entry.state ≡ state) × (kind_of entry.cycle ≡ 0)) }
    ensures entry { IfOk result (λ entry. (taken : List Frame) × AddsEntry frames.old.items (record { entry = entry; frames = taken }) frames.new.items × Leaves left.old.rest.now (more_lines (record { entry = entry; frames = taken })) left.new.rest.now) }
{
    let entry = read_slots(alloc, left, frames, state)?;
    if has_submix(&entry) {
        Ok(entry)
    } else {
        Err(Stop::Order)
    }
}

// An entry of a state and a kind, after its line; its frames are added.
fn read_entry(
    alloc: Global,
    left: &mut Left<'_>,
    frames: &mut Vec<Frame>,
    state: u64,
    kind: u32,
) -> Result<CycleEntry, Stop>
    requires kind { kind < 4 }
    ensures state { IfOk result (λ entry. (entry.state ≡ state) × (kind_of entry.cycle ≡ kind)) }
    ensures entry { IfOk result (λ entry. (taken : List Frame) × AddsEntry frames.old.items (record { entry = entry; frames = taken }) frames.new.items × Leaves left.old.rest.now (more_lines (record { entry = entry; frames = taken })) left.new.rest.now) }
{
    match kind {
        0 => read_mix(alloc, left, frames, state),
        1 => Ok(still_entry(state, Cycle::Idle)),
        2 => Ok(still_entry(state, Cycle::Cold)),
        _ => Ok(still_entry(state, Cycle::Exit)),
    }
}

// Entries, one after the other, so many at most; how many there were.
fn read_entries(
    alloc: Global,
    left: &mut Left<'_>,
    taken: &mut Taken,
    most: usize,
) -> Result<usize, Stop>
    ensures few { IfOk result (λ count. count ≤ most) }
    ensures entries { IfOk result (λ count. (seen : List EntrySeen) × (count ≡ length seen) × AddsEntries taken.old.entries.items taken.old.frames.items seen taken.new.entries.items taken.new.frames.items × Leaves left.old.rest.now (flat_map entry_lines seen) left.new.rest.now) }
{
    let before = taken.entries.len();
    'entries: while let Some((Line::Entry { state, kind }, after)) = next_line(left.rest) {
        if taken.entries.len() - before >= most {
            break;
        }
        left.rest = after;
        let entry = read_entry(alloc, left, &mut taken.frames, state, kind)?;
        taken.entries.push(entry)?;
    }
    Ok(taken.entries.len() - before)
}

/// The entries of a round, so many at most, which are added; how many there were. What is left may begin with further ones if there were so many.
pub(crate) fn read_fast(
    alloc: Global,
    left: &mut Left<'_>,
    taken: &mut Taken,
    most: usize,
) -> Result<usize, Stop>
    ensures few { IfOk result (λ count. count ≤ most) }
    ensures entries { IfOk result (λ count. (seen : List EntrySeen) × (count ≡ length seen) × AddsEntries taken.old.entries.items taken.old.frames.items seen taken.new.entries.items taken.new.frames.items × Leaves left.old.rest.now (fast_lines seen) left.new.rest.now) }
{
    let Some((Line::Fast, after)) = next_line(left.rest) else {
        return Ok(0);
    };
    left.rest = after;
    let count = read_entries(alloc, left, taken, most)?;
    if count == 0 {
        Err(Stop::Order)
    } else {
        Ok(count)
    }
}
