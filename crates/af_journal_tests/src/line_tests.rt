//! Lines of each kind, and a small journal with its text.
use af_base::{
    ClientCall, Cycle, CycleEntry, FastLog, Memory, Push, SLOTS, Seen, SlotEntry, TurnEntry,
};
use af_journal::{Line, write};
use af_model::{Journal, Rounds};
use std::alloc::Global;
use std::mem::drop;
use std::test::Fail;

macro_rules! call {
    ($call:expr) => {
        Line::Call { call: $call }
    };
}

macro_rules! look {
    ($seen:expr) => {
        Line::Look {
            track: 1,
            flush: 2,
            rear: 3,
            seen: $seen,
        }
    };
}

macro_rules! take {
    ($seen:expr) => {
        Line::Take {
            track: 1,
            gains: 4,
            flush: 2,
            rear: 3,
            seen: $seen,
        }
    };
}

macro_rules! slot {
    ($seen:expr) => {
        Line::Slot {
            slot: 5,
            scale: 4096,
            mono: true,
            gains: 4,
            flush: 2,
            rear: 3,
            seen: $seen,
        }
    };
}

const FRAMES: Seen = Seen::Frames { count: 2 };

const FLUSHED: Seen = Seen::Flushed { dropped: 5 };

const SHUT: Seen = Seen::Shut { front: 6, rear: 7 };

const LINES: [(Line, &str); 36] = [
    (look!(FRAMES), "q 1 2 3 f 2"),
    (take!(FRAMES), "m 1 4 2 3 f 2"),
    (slot!(FRAMES), "z 5 4096 1 4 2 3 f 2"),
    (look!(Seen::Empty), "q 1 2 3 e"),
    (take!(Seen::Empty), "m 1 4 2 3 e"),
    (slot!(Seen::Empty), "z 5 4096 1 4 2 3 e"),
    (look!(FLUSHED), "q 1 2 3 l 5"),
    (take!(FLUSHED), "m 1 4 2 3 l 5"),
    (slot!(FLUSHED), "z 5 4096 1 4 2 3 l 5"),
    (look!(SHUT), "q 1 2 3 x 6 7"),
    (take!(SHUT), "m 1 4 2 3 x 6 7"),
    (slot!(SHUT), "z 5 4096 1 4 2 3 x 6 7"),
    (call!(ClientCall::Put { front: 1, count: 2 }), "p 1 2"),
    (
        call!(ClientCall::Full { front: 4294967295 }),
        "u 4294967295",
    ),
    (call!(ClientCall::Dead { flags: 12 }), "d 12"),
    (call!(ClientCall::Corrupt { front: 3, rear: 0 }), "x 3 0"),
    (call!(ClientCall::Cleared { flags: 8 }), "k 8"),
    (call!(ClientCall::Flush { count: 1 }), "l 1"),
    (call!(ClientCall::Gain { word: 268439552 }), "g 268439552"),
    (
        call!(ClientCall::Sent {
            front: 2,
            code: 1,
            argument: 0,
        }),
        "s 2 1 0",
    ),
    (call!(ClientCall::SendFull { front: 9 }), "su 9"),
    (call!(ClientCall::SendDead { flags: 4 }), "sd 4"),
    (
        call!(ClientCall::SendCorrupt { front: 8, rear: 1 }),
        "sx 8 1",
    ),
    (call!(ClientCall::Status { word: 10 }), "t 10"),
    (
        call!(ClientCall::Poke {
            command: true,
            word: 6,
            value: 7,
        }),
        "o 1 6 7",
    ),
    (Line::Round, "R"),
    (Line::Client { track: 31 }, "C 31"),
    (
        Line::Turn {
            room: 8,
            ack: true,
            cycle: 18446744073709551615,
        },
        "N 8 1 18446744073709551615",
    ),
    (Line::Ended, "E"),
    (Line::Disabled { track: 0 }, "b 0"),
    (Line::Status { track: 1, word: 2 }, "a 1 2"),
    (Line::Pushed { push: Push::Clean }, "P 0"),
    (
        Line::Pushed {
            push: Push::Pushed { number: 3 },
        },
        "P 1 3",
    ),
    (
        Line::Pushed {
            push: Push::Busy {
                seen: 2,
                expected: 3,
            },
        },
        "P 2 2 3",
    ),
    (Line::Fast, "F"),
    (Line::Entry { state: 4, kind: 3 }, "y 4 3"),
];

// An idle cycle before any state.
const STILL: CycleEntry = CycleEntry {
    state: 0,
    cycle: Cycle::Idle,
    slots: [SlotEntry {
        gains: 0,
        flush: 0,
        rear: 0,
        seen: Seen::Absent,
        first: 0,
    }; SLOTS],
    scales: [0; SLOTS],
    mono: 0,
};

// Whether a line has this text.
fn reads(alloc: Global, line: Line, text: &str) -> Result<bool, Memory> {
    Ok(format!(in alloc; "{line}")?.as_str() == text)
}

// Two tracks, two rounds: calls of the first client, and then a turn of a mixer that has ended, and an idle cycle.
fn small_journal(alloc: Global) -> Result<Journal, Memory> {
    let mut noted = Rounds::new(alloc, 2);
    let mut first = Vec::new(alloc);
    first.push(ClientCall::Sent {
        front: 0,
        code: 1,
        argument: 0,
    })?;
    first.push(ClientCall::Full { front: 0 })?;
    let calls = vec![in alloc; first, Vec::new(alloc)]?;
    noted.push(calls, None, 0)?;
    let none = vec![in alloc; Vec::new(alloc), Vec::new(alloc)]?;
    noted.push(none, Some(TurnEntry::with_room(alloc, 0, 0)?), 1)?;
    let mut log = FastLog::with_room(alloc, 1, 1)?;
    log.push(STILL);
    noted.know_numbers(&log);
    Ok(Journal::new(noted, log))
}

#[test]
fn each_kind_of_line_has_its_text(rt: HostRuntime) {
    for (line, text) in &LINES {
        assert!(rt; reads(rt.alloc(), *line, text) == Ok(true), "{text}");
    }
}

// Whether a journal has two rounds of two tracks, with those calls, the turn and the cycle.
fn has_two_rounds(journal: &Journal) -> bool {
    if journal.rounds() != 2 || journal.tracks() != 2 {
        return false;
    }
    journal.client(0, 0).len() == 2
        && journal.client(1, 0).is_empty()
        && journal.turn(0).is_none()
        && journal.turn(1).is_some()
        && journal.cycles(1) == (0, 1)
        && journal.log().len() == 1
}

#[test]
fn a_small_journal_is_read_and_written(rt: HostRuntime) -> Result<(), Fail> {
    let journal = small_journal(rt.alloc())?;
    let is_small = has_two_rounds(&journal);
    let mut text = Vec::new(rt.alloc());
    let wrote = write(rt.alloc(), &journal, &mut text);
    drop(journal);
    assert!(rt; is_small && wrote.is_ok());
    let told = "R\nC 0\ns 0 1 0\nu 0\nR\nE\nF\ny 0 1\n";
    assert!(rt; text.as_slice() == told.as_bytes());
    Ok(())
}
