//! A log with room for two notes, both ends on one thread, the note of an entry, and the texts of logs.
ghost use Rattle.std.specs.Prelude.{◌≡◌, ◌<◌, false};
ghost use Rattle.af_model.specs.JournalForm.{is_spent};

use af_base::{Cycle, CycleEntry, Memory, SLOTS, Seen, SlotEntry, Steps};
use af_nblog::{Note, Noted, meet_notes, note_of, ring, write};
use std::alloc::Global;
use std::marker::Brand;
use std::sync::ledger::{Blank, Ledger};
use std::test::*;

// The note of an entry at this place, whose high halves aren't zero.
fn note_at(place: u64) -> Note {
    Note {
        place,
        state: 0x1234_5678_9abc_def0,
        kind: 3,
        fulls: 4,
        partials: 5,
        empties: 6,
    }
}

// Three notes into room for two, a read, a meeting, the third note again, and what is left.
fn passes_notes<L: Ledger>(alloc: Global, blank: Blank) -> Result<bool, Memory>
    requires name { blank.name ≡ L.name }
    requires parts { (blank.parts ≡ L.parts) × (0 < blank.parts) }
{
    let mut steps = Steps::<L>::start(blank);
    let (block, mut writer, mut reader) = ring(alloc, 2)?;
    let noted = [
        writer.note(&block, note_at(0), &mut steps),
        writer.note(&block, note_at(1), &mut steps),
        writer.note(&block, note_at(2), &mut steps),
    ];
    let first = reader.next(&block, &mut steps);
    meet_notes(&block, &mut writer, &mut reader, &mut steps);
    let again = writer.note(&block, note_at(2), &mut steps);
    let rest = [
        reader.next(&block, &mut steps),
        reader.next(&block, &mut steps),
        reader.next(&block, &mut steps),
    ];
    let refused = Noted::Refused { sent: 2, known: 0 };
    Ok(
        noted == [Noted::Sent, Noted::Sent, refused]
            && first == Some(note_at(0))
            && again == Noted::Sent
            && rest == [Some(note_at(1)), Some(note_at(2)), None]
            && writer.refused() == 1,
    )
}

#[test]
fn a_note_without_room_is_refused(rt: HostRuntime) {
    let passed = passes_notes::<Brand>(rt.alloc(), Blank::new(1));
    assert!(rt; passed == Ok(true));
}

// A mixed entry of state 7. Its slots 0, 1 and 31 showed four frames and its slot 2 three. Its slot 4 showed none, and its slot 5 a flush.
fn mixed_entry() -> CycleEntry
    ensures { is_spent result.cycle ≡ false }
{
    let absent = SlotEntry {
        gains: 0,
        flush: 0,
        rear: 0,
        seen: Seen::Absent,
        first: 0,
    };
    let mut slots = [absent; SLOTS];
    slots[0].seen = Seen::Frames { count: 4 };
    slots[1].seen = Seen::Frames { count: 4 };
    slots[2].seen = Seen::Frames { count: 3 };
    slots[4].seen = Seen::Empty;
    slots[5].seen = Seen::Flushed { dropped: 4 };
    slots[31].seen = Seen::Frames { count: 4 };
    CycleEntry {
        state: 7,
        cycle: Cycle::Mixed,
        slots,
        scales: [0x1000; SLOTS],
        mono: 0,
    }
}

#[test]
fn a_note_counts_the_slots_but_the_first(rt: HostRuntime) {
    let entry = mixed_entry();
    let want = Note {
        place: 9,
        state: 7,
        kind: 0,
        fulls: 2,
        partials: 1,
        empties: 1,
    };
    assert!(rt; note_of(9, &entry, 4) == want);
}

const NOTES: [Note; 2] = [
    Note {
        place: 0,
        state: 0,
        kind: 1,
        fulls: 0,
        partials: 0,
        empties: 0,
    },
    Note {
        place: 18446744073709551615,
        state: 7,
        kind: 3,
        fulls: 31,
        partials: 4294967295,
        empties: 5,
    },
];

// How many of the notes were accepted, how many refused, and the text.
const TEXTS: [(usize, u64, &str); 3] = [
    (0, 0, "refused 0\n"),
    (
        1,
        18446744073709551615,
        "0 0 1 0 0 0\nrefused 18446744073709551615\n",
    ),
    (
        2,
        10,
        "0 0 1 0 0 0\n18446744073709551615 7 3 31 4294967295 5\nrefused 10\n",
    ),
];

// Whether the text of so many notes stands behind what was there before.
fn is_written(alloc: Global, count: usize, refused: u64, text: &str) -> Result<bool, Memory> {
    let mut out = Vec::new(alloc);
    out.extend_from_slice(b"before\n")?;
    write(alloc, &NOTES[..count.min(2)], refused, &mut out)?;
    Ok(out.as_slice().strip_prefix(b"before\n") == Some(text.as_bytes()))
}

// Each text stands behind what was there before.
fn texts_are_written(alloc: Global) -> Result<bool, Memory> {
    for (count, refused, text) in &TEXTS {
        if !is_written(alloc, *count, *refused, text)? {
            return Ok(false);
        }
    }
    Ok(true)
}

#[test]
fn a_log_has_its_text(rt: HostRuntime) {
    let written = texts_are_written(rt.alloc());
    assert!(rt; written == Ok(true));
}
