//! What a note tells of an entry.
ghost use Rattle.std.specs.Prelude.{◌≡◌, ◌≤◌, false, length};
ghost use Rattle.std.specs.List.{count_by};
ghost use Rattle.af_model.specs.JournalForm.{is_spent};
ghost use Rattle.af_model.specs.Reports.{is_full, is_empty};
ghost use Rattle.af_nblog.specs.Notes.{is_short_look, note_of};

use af_base::{CycleEntry, Seen, SlotEntry};

/// What the log tells of one entry of the fast mixer.
#[derive(Clone, Copy, Debug, PartialEq, Eq)]
pub struct Note {
    /// The index of the entry in the mixer's log.
    pub place: u64,
    /// The number of the state that the entry used, 0 if none was pushed.
    pub state: u64,
    /// 0 if it was mixed, 1 idle, 2 a change to cold idle, 3 the end.
    pub kind: u32,
    /// How many of the slots 1 to 31 showed frames for the whole cycle.
    pub fulls: u32,
    /// How many showed fewer frames.
    pub partials: u32,
    /// How many showed no frame.
    pub empties: u32,
}

// Whether a look showed exactly so many frames.
fn is_full(frames: u32, seen: Seen) -> bool
    ensures { result ≡ is_full frames seen }
{
    match seen {
        Seen::Frames { count } => count == frames,
        _ => false,
    }
}

// Whether a look showed fewer frames, and some.
fn is_partial(frames: u32, seen: Seen) -> bool
    ensures { result ≡ is_short_look frames seen }
{
    match seen {
        Seen::Frames { count } => count < frames,
        _ => false,
    }
}

// Whether a look showed that no frame is there.
fn is_empty(seen: Seen) -> bool
    ensures { result ≡ is_empty seen }
{
    matches!(seen, Seen::Empty)
}

// How many of these slots showed exactly so many frames.
fn count_fulls(slots: &[SlotEntry], frames: u32) -> usize
    ensures value { result ≡ count_by (λ slot. is_full frames slot.seen) slots.now }
    ensures few { result ≤ length slots.now }
{
    slots
        .iter()
        .filter(|slot| is_full(frames, slot.seen))
        .count()
}

// How many of these slots showed fewer frames.
fn count_partials(slots: &[SlotEntry], frames: u32) -> usize
    ensures value { result ≡ count_by (λ slot. is_short_look frames slot.seen) slots.now }
    ensures few { result ≤ length slots.now }
{
    slots
        .iter()
        .filter(|slot| is_partial(frames, slot.seen))
        .count()
}

// How many of these slots showed no frame.
fn count_empties(slots: &[SlotEntry]) -> usize
    ensures value { result ≡ count_by (λ slot. is_empty slot.seen) slots.now }
    ensures few { result ≤ length slots.now }
{
    slots.iter().filter(|slot| is_empty(slot.seen)).count()
}

/// The note of an entry that stands at this index of the log, if a cycle has so many frames. The counts are of the slots 1 to 31 that showed so many frames, fewer, or none. The entry isn't that of a full log.
pub fn note_of(place: u64, entry: &CycleEntry, frames: u32) -> Note
    requires kept { is_spent entry.now.cycle ≡ false }
    ensures { result ≡ note_of place entry.now frames }
{
    let slots = &entry.slots[1..];
    Note {
        place,
        state: entry.state,
        kind: entry.cycle.kind(),
        fulls: count_fulls(slots, frames) as u32,
        partials: count_partials(slots, frames) as u32,
        empties: count_empties(slots) as u32,
    }
}
