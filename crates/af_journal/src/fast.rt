//! The lines of the fast mixer's entries.
ghost use Rattle.std.specs.Prelude.{◌≡◌, ◌+◌, ◌<◌, ◌≤◌, true, take, drop, flat_map, length, IfOk, All};
ghost use Rattle.af_base.specs.Log.{count_seen, entry_slot, slots};
ghost use Rattle.af_model.specs.Cycles.{is_mixed};
ghost use Rattle.af_journal.specs.Texts.{GoesOn};
ghost use Rattle.af_runs.specs.Fronts.{is_shown};
ghost use Rattle.af_journal.specs.Logged.{logged_entry, logged_fast, logged_shown, logged_slot, logged_slots};
ghost use Rattle.af_runs.specs.Pcm.{LieWithin};

use crate::line::Line;
use crate::packed::add_frames;
use crate::text::{Text, add};
use af_base::{Cycle, CycleEntry, FastLog, Frame, Memory, SLOTS, Seen};

// Whether a slot shows something.
fn is_shown(seen: Seen) -> bool
    ensures { result ≡ is_shown seen }
{
    !matches!(seen, Seen::Absent)
}

// Adds a slot that shows something.
fn add_shown(
    text: &mut Text,
    frames: &[Frame],
    entry: &CycleEntry,
    slot: usize,
) -> Result<(), Memory>
    requires slot { slot < slots }
    requires within { (entry_slot entry.now slot).first + count_seen (entry_slot entry.now slot).seen ≤ length frames.now }
    ensures { IfOk result (λ _. GoesOn text.old.bytes.items (logged_shown frames.now entry.now slot) text.new.bytes.items) }
{
    let seen = entry.slots[slot];
    let line = Line::Slot {
        slot: slot as u32,
        scale: entry.scales[slot],
        mono: (entry.mono >> slot) & 1 == 1,
        gains: seen.gains,
        flush: seen.flush,
        rear: seen.rear,
        seen: seen.seen,
    };
    let end = seen.first + seen.seen.count() as usize;
    add(text, line)?;
    add_frames(text, &frames[seen.first..end])?;
    Ok(())
}

// Adds a slot of a mix, if it shows something.
fn add_slot(
    text: &mut Text,
    frames: &[Frame],
    entry: &CycleEntry,
    slot: usize,
) -> Result<(), Memory>
    requires slot { slot < slots }
    requires within { (entry_slot entry.now slot).first + count_seen (entry_slot entry.now slot).seen ≤ length frames.now }
    ensures { IfOk result (λ _. GoesOn text.old.bytes.items (logged_slot frames.now entry.now slot) text.new.bytes.items) }
{
    if !is_shown(entry.slots[slot].seen) {
        return Ok(());
    }
    add_shown(text, frames, entry, slot)
}

// Adds the slots of a mix.
fn add_slots(text: &mut Text, frames: &[Frame], entry: &CycleEntry) -> Result<(), Memory>
    requires mixed { is_mixed entry.now.cycle ≡ true }
    requires within { LieWithin frames.now entry.now }
    ensures { IfOk result (λ _. GoesOn text.old.bytes.items (logged_slots frames.now entry.now) text.new.bytes.items) }
{
    for slot in 0..SLOTS {
        add_slot(text, frames, entry, slot)?;
    }
    Ok(())
}

// Adds an entry.
fn add_entry(text: &mut Text, frames: &[Frame], entry: &CycleEntry) -> Result<(), Memory>
    requires within { LieWithin frames.now entry.now }
    ensures { IfOk result (λ _. GoesOn text.old.bytes.items (logged_entry frames.now entry.now) text.new.bytes.items) }
{
    let kind = entry.cycle.kind();
    add(
        text,
        Line::Entry {
            state: entry.state,
            kind,
        },
    )?;
    if !matches!(entry.cycle, Cycle::Mixed) {
        return Ok(());
    }
    add_slots(text, frames, entry)
}

/// Adds so many entries from a place of the log on, if there are some.
pub(crate) fn add_entries(
    text: &mut Text,
    log: &FastLog,
    first: usize,
    count: usize,
) -> Result<(), Memory>
    requires there { first + count ≤ length log.now.entries }
    requires within { All (LieWithin log.now.frames) log.now.entries }
    ensures { IfOk result (λ _. GoesOn text.old.bytes.items (logged_fast log.now.frames (take count (drop first log.now.entries))) text.new.bytes.items) }
{
    let _entries = log.len();
    if count == 0 {
        return Ok(());
    }
    add(text, Line::Fast)?;
    for i in 0..count {
        let Some(entry) = log.entry(first + i) else {
            unreachable!()
        };
        add_entry(text, log.frames(), entry)?;
    }
    Ok(())
}
