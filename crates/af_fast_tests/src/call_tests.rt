//! What cycles answer, write, log and report, by tables of steps.
use crate::table_tests::{Row, Step, THREE, Told, plays};
use crate::tests::{ABSENT, BEFORE, SILENCE, Turned, still};
use af_base::{
    Command, Cycle, CycleEntry, Frame, Memory, Push, SLOTS, Seen, SlotEntry, SlotReport,
};
use af_client::Wrote;
use af_link::first_report;
use std::alloc::Global;
use std::test::*;

// The frame of a number on both sides.
macro_rules! frame {
    ($number:expr) => {
        Frame {
            left: $number,
            right: $number,
        }
    };
}

const SIX: [Frame; 6] = [
    frame!(1),
    frame!(2),
    frame!(3),
    frame!(4),
    frame!(5),
    frame!(6),
];

// The first three frames, and then silence.
const HEARD: (Frame, Frame, Frame, Frame) = (frame!(1), frame!(2), frame!(3), SILENCE);

const QUIET: (Frame, Frame, Frame, Frame) = (SILENCE, SILENCE, SILENCE, SILENCE);

// The word of the frames (1, 1), (2, 2) and so on.
const ONE: u32 = 0x0001_0001;

// What a step is to answer. Of a cycle the reports of the slots 1 and 2 are given, and nothing is reported of the others.
#[derive(Clone, Copy)]
enum Want {
    Done,
    Is {
        so: bool,
    },
    Pushed {
        push: Push,
    },
    Wrote {
        wrote: Wrote,
    },
    Word {
        word: u32,
    },
    Cycle {
        number: u64,
        cycle: Cycle,
        out: (Frame, Frame, Frame, Frame),
        first: SlotReport,
        second: SlotReport,
    },
}

// A step with what it is to answer.
type Wanted = (Step, Want);

fn told((step, want): Wanted) -> Row {
    let told = match want {
        Want::Done => Told::Done,
        Want::Is { so } => Told::Is { so },
        Want::Pushed { push } => Told::Pushed { push },
        Want::Wrote { wrote } => Told::Wrote { wrote },
        Want::Word { word } => Told::Word { word },
        Want::Cycle {
            number,
            cycle,
            out,
            first,
            second,
        } => {
            let mut report = first_report();
            report.cycle = number;
            report.slots[1] = first;
            report.slots[2] = second;
            let out = [out.0, out.1, out.2, out.3];
            let turned = Turned { cycle, out, report };
            Told::Turned { turned }
        }
    };
    (step, told)
}

// A step that answers whether something is so.
macro_rules! is {
    ($step:expr, $so:expr) => {
        (
            $step,
            Want::Is { so: $so },
        )
    };
}

// Attaches a track at unity, if the slot is free.
macro_rules! attaches {
    ($slot:expr, $track:expr, $so:expr) => {
        is!(
            Step::Attach {
                slot: $slot,
                track: $track,
                mono: false,
                scale: 0x1000,
            },
            $so
        )
    };
}

// Writes so many multiples of a word into an empty block of eight.
macro_rules! writes {
    ($track:expr, $word:expr, $count:expr) => {
        (
            Step::Write {
                track: $track,
                word: $word,
                count: $count,
            },
            Want::Wrote {
                    wrote: Wrote::Put {
                        front: 0,
                        count: $count,
                        rest: 8 - $count,
                    },
},
        )
    };
}

// Pushes, and answers that.
macro_rules! push {
    ($command:expr, $push:expr) => {
        (
            Step::Push { command: $command },
            Want::Pushed { push: $push },
        )
    };
}

// Pushes the state of this number.
macro_rules! pushes {
    ($command:expr, $number:expr) => {
        push!($command, Push::Pushed { number: $number })
    };
}

// A step that answers nothing.
macro_rules! done {
    ($step:expr) => {
        ($step, Want::Done)
    };
}

// Clears the flags of the first track.
macro_rules! clears {
    ($word:expr) => {
        (
            Step::Clear { track: 0 },
            Want::Word { word: $word },
        )
    };
}

// A cycle that mixes, with what it reports of the slots 1 and 2.
macro_rules! mixes {
    ($number:expr, $out:expr, $first:expr, $second:expr) => {
        (
            Step::Cycle,
            Want::Cycle {
                number: $number,
                cycle: Cycle::Mixed,
                out: $out,
                first: $first,
                second: $second,
            },
        )
    };
}

// A cycle that writes nothing, with what it reports of slot 1.
macro_rules! rests {
    ($cycle:expr, $number:expr, $first:expr) => {
        (
            Step::Cycle,
            Want::Cycle {
                number: $number,
                cycle: $cycle,
                out: (BEFORE, BEFORE, BEFORE, BEFORE),
                first: $first,
                second: NONE,
            },
        )
    };
}

// What is reported of a slot after full, partial and empty looks at a lawful track without flushes.
macro_rules! counted {
    ($generation:expr, $consumed:expr, $fulls:expr, $partials:expr, $empties:expr) => {
        SlotReport {
            consumed: $consumed,
            shut: false,
            generation: $generation,
            flush_seen: 0,
            fulls: $fulls,
            partials: $partials,
            empties: $empties,
        }
    };
}

const NONE: SlotReport = counted!(0, 0, 0, 0, 0);

// Three frames were taken, and then there were none.
const TAKEN: SlotReport = counted!(1, 3, 0, 1, 0);

const EMPTY: SlotReport = counted!(1, 3, 0, 1, 1);

// An entry of a log: the state, the cycle, and slot 1 of a mix.
type Entry = (u64, Cycle, SlotEntry);

// A slot at unity that took three frames.
const THREE_TAKEN: SlotEntry = SlotEntry {
    gains: 0x1000_1000,
    flush: 0,
    rear: 3,
    seen: Seen::Frames { count: 3 },
    first: 0,
};

const NO_MORE: SlotEntry = SlotEntry {
    gains: 0x1000_1000,
    flush: 0,
    rear: 3,
    seen: Seen::Empty,
    first: 0,
};

const STREAM: [Wanted; 11] = [
    writes!(0, ONE, 3),
    rests!(Cycle::Idle, 1, NONE),
    attaches!(1, 0, true),
    pushes!(Command::MixWrite, 1),
    mixes!(2, HEARD, TAKEN, NONE),
    mixes!(3, QUIET, EMPTY, NONE),
    pushes!(Command::ColdIdle, 2),
    rests!(Cycle::Cold, 4, EMPTY),
    rests!(Cycle::Idle, 5, EMPTY),
    rests!(Cycle::Spent { cycles: 5 }, 5, EMPTY),
    clears!(1),
];

const STREAM_LOG: [Entry; 5] = [
    (0, Cycle::Idle, ABSENT),
    (1, Cycle::Mixed, THREE_TAKEN),
    (1, Cycle::Mixed, NO_MORE),
    (2, Cycle::Cold, ABSENT),
    (2, Cycle::Idle, ABSENT),
];

const ATTACHED: SlotReport = counted!(1, 0, 0, 0, 0);

// An exit is answered again without an entry.
const EXIT: [Wanted; 7] = [
    attaches!(1, 0, true),
    pushes!(Command::Exit, 1),
    rests!(Cycle::Exit, 1, ATTACHED),
    pushes!(Command::MixWrite, 2),
    rests!(Cycle::Exit, 1, ATTACHED),
    rests!(Cycle::Exit, 1, ATTACHED),
    is!(Step::Ack, false),
];

// A full log is answered without an entry.
const FULL: [Wanted; 8] = [
    writes!(0, ONE, 3),
    attaches!(1, 0, true),
    pushes!(Command::MixWrite, 1),
    mixes!(1, HEARD, TAKEN, NONE),
    pushes!(Command::Exit, 2),
    rests!(Cycle::Spent { cycles: 1 }, 1, TAKEN),
    rests!(Cycle::Spent { cycles: 1 }, 1, TAKEN),
    is!(Step::Ack, false),
];

// The report of a track of which three frames were discarded.
macro_rules! discarded {
    ($shut:expr, $empties:expr) => {
        SlotReport {
            consumed: 3,
            shut: $shut,
            generation: 1,
            flush_seen: 1,
            fulls: 0,
            partials: 0,
            empties: $empties,
        }
    };
}

// A flush is no underrun.
const FLUSH: [Wanted; 12] = [
    writes!(0, ONE, 3),
    attaches!(1, 0, true),
    pushes!(Command::MixWrite, 1),
    done!(Step::Flush { track: 0 }),
    mixes!(1, QUIET, discarded!(false, 0), NONE),
    clears!(0),
    mixes!(2, QUIET, discarded!(false, 1), NONE),
    clears!(1),
    done!(Step::Poke {
        track: 0,
        rear: 100,
    }),
    mixes!(3, QUIET, discarded!(true, 1), NONE),
    clears!(5),
    mixes!(4, QUIET, discarded!(true, 1), NONE),
];

// A slot that saw the flush, at unity.
macro_rules! saw {
    ($rear:expr, $seen:expr) => {
        SlotEntry {
            gains: 0x1000_1000,
            flush: 1,
            rear: $rear,
            seen: $seen,
            first: 0,
        }
    };
}

const SHUT: Seen = Seen::Shut {
    front: 3,
    rear: 100,
};

const FLUSH_LOG: [Entry; 4] = [
    (1, Cycle::Mixed, saw!(3, Seen::Flushed { dropped: 3 })),
    (1, Cycle::Mixed, saw!(3, Seen::Empty)),
    (1, Cycle::Mixed, saw!(100, SHUT)),
    (1, Cycle::Mixed, saw!(100, SHUT)),
];

const KEPT: SlotReport = counted!(1, 6, 1, 1, 1);

const BUSY: Push = Push::Busy {
    seen: 1,
    expected: 2,
};

// A new generation counts from nothing. The first track is mixed in slot 1 and detached. The second finds slot 1 taken and gets slot 2, but its push is too early: once the mixer has seen the detached slot it goes on, and the proxy comes back. The third gets slot 1, with a new generation.
const GENERATIONS: [Wanted; 21] = [
    writes!(0, ONE, 6),
    writes!(2, ONE, 2),
    attaches!(1, 0, true),
    pushes!(Command::MixWrite, 1),
    mixes!(
        1,
        (frame!(1), frame!(2), frame!(3), frame!(4)),
        counted!(1, 4, 1, 0, 0),
        NONE
    ),
    mixes!(
        2,
        (frame!(5), frame!(6), SILENCE, SILENCE),
        counted!(1, 6, 1, 1, 0),
        NONE
    ),
    mixes!(3, QUIET, KEPT, NONE),
    is!(Step::Detach { slot: 1 }, true),
    pushes!(Command::MixWrite, 2),
    attaches!(1, 1, false),
    attaches!(2, 1, true),
    push!(Command::MixWrite, BUSY),
    is!(Step::TakeBack { slot: 1 }, false),
    mixes!(4, QUIET, KEPT, NONE),
    pushes!(Command::MixWrite, 3),
    is!(Step::TakeBack { slot: 1 }, true),
    mixes!(5, QUIET, KEPT, counted!(1, 0, 0, 0, 1)),
    attaches!(1, 2, true),
    pushes!(Command::MixWrite, 4),
    mixes!(
        6,
        (frame!(1), frame!(2), SILENCE, SILENCE),
        counted!(2, 2, 0, 1, 0),
        counted!(1, 0, 0, 0, 2)
    ),
    mixes!(7, QUIET, counted!(2, 2, 0, 1, 1), counted!(1, 0, 0, 0, 3)),
];

const PUT: Step = Step::Put {
    word: ONE,
    count: 3,
};

// All ends meet between cycles.
const MEETINGS: [Wanted; 9] = [
    pushes!(Command::MixWrite, 1),
    done!(Step::Meet),
    done!(PUT),
    mixes!(1, HEARD, NONE, NONE),
    done!(Step::Meet),
    done!(PUT),
    mixes!(2, HEARD, NONE, NONE),
    done!(Step::Meet),
    is!(Step::Ack, true),
];

// A mixer with room for so many entries, its steps, and its entries and how many of the six frames it has then, if they are given.
struct Case {
    name: &'static str,
    room: usize,
    rows: &'static [Wanted],
    log: &'static [Entry],
    frames: usize,
}

macro_rules! case {
    ($name:expr, $room:expr, $rows:expr, $log:expr, $frames:expr) => {
        Case {
            name: $name,
            room: $room,
            rows: $rows,
            log: $log,
            frames: $frames,
        }
    };
}

const CASES: [Case; 7] = [
    case!("a stream between idle cycles", 5, &STREAM, &STREAM_LOG, 3),
    case!("an exit", 3, &EXIT, &[(1, Cycle::Exit, ABSENT)], 0),
    case!(
        "an exit, and then a full log",
        1,
        &EXIT,
        &[(1, Cycle::Exit, ABSENT)],
        0
    ),
    case!("a full log", 1, &FULL, &[(1, Cycle::Mixed, THREE_TAKEN)], 3),
    case!("a flush", 4, &FLUSH, &FLUSH_LOG, 0),
    case!("generations", 10, &GENERATIONS, &[], 0),
    case!("meetings", 2, &MEETINGS, &[], 0),
];

// The entries of a log, each with an empty pipe if it is a mix.
fn entries_of(log: &[Entry]) -> [CycleEntry; 5] {
    let mut entries = [still(0, Cycle::Idle); 5];
    for i in 0..log.len().min(5) {
        let (state, cycle, slot) = log[i];
        entries[i] = still(state, cycle);
        if cycle == Cycle::Mixed {
            entries[i].slots[0] = SlotEntry { rear: 0, ..NO_MORE };
            entries[i].slots[1] = slot;
            entries[i].scales[0] = 0x1000;
            entries[i].scales[1] = 0x1000;
        }
    }
    entries
}

// The steps with what they answer, of which there are at most 21.
fn rows_of(rows: &[Wanted]) -> [Row; 21] {
    let mut all = [(Step::Meet, Told::Done); 21];
    for i in 0..rows.len().min(21) {
        all[i] = told(rows[i]);
    }
    all
}

#[test]
fn cycles_answer_as_the_tables_say(rt: HostRuntime) {
    for case in &CASES {
        let log = entries_of(case.log);
        let entries = &log[..case.log.len().min(5)];
        let frames = &SIX[..case.frames.min(6)];
        let room = case.room.max(1).min(1000);
        let rows = rows_of(case.rows);
        let rows = &rows[..case.rows.len().min(21)];
        let found = plays(rt.alloc(), room, &THREE, rows, entries, frames);
        let name = case.name;
        assert!(rt; found == Ok((case.rows.len(), true)), "{name}");
    }
}

// Words of one frame for each track, the gains, and the frame that is heard.
const TAKES: [(&[u32], u32, Frame); 5] = [
    (&[HIGH, HIGH], 0x1000_1000, LOUD),
    (&[HIGH, HIGH, 0x8001], 0x1000_1000, LOUD),
    (&[0xffff_0001], 0x0800_0800, Frame { left: 0, right: -1 }),
    (
        &[0x03e8_03e8],
        0xffff_1001,
        Frame {
            left: 1000,
            right: 1000,
        },
    ),
    (
        &[0x7fff_8000; SLOTS - 1],
        0x1000_1000,
        Frame {
            left: -32768,
            right: 32767,
        },
    ),
];

// The word of the loudest frame.
const HIGH: u32 = 0x8000_7fff;

const LOUD: Frame = Frame {
    left: 32767,
    right: -32768,
};

const TRACKS: usize = SLOTS - 1;

// The most rows: three for each track, a push and a cycle.
const MOST: usize = 3 * TRACKS + 2;

// Whether tracks that write one frame each, at these gains, are heard as one frame.
fn heard_as(alloc: Global, words: &[u32], gains: u32, frame: Frame) -> Result<bool, Memory> {
    let count = words.len().min(TRACKS);
    let push = pushes!(Command::MixWrite, 1);
    let mut rows = [told(push); MOST];
    let mut report = first_report();
    report.cycle = 1;
    for track in 0..count {
        let (slot, word) = (track + 1, words[track]);
        rows[3 * track] = told(done!(Step::Gains { track, word: gains }));
        rows[3 * track + 1] = told(writes!(track, word, 1));
        rows[3 * track + 2] = told(attaches!(slot as u32, track as u32, true));
        report.slots[slot] = counted!(1, 1, 0, 1, 0);
    }
    let out = [frame, SILENCE, SILENCE, SILENCE];
    let cycle = Cycle::Mixed;
    let turned = Turned { cycle, out, report };
    rows[3 * count + 1] = (Step::Cycle, Told::Turned { turned });
    let rows = &rows[..3 * count + 2];
    let found = plays(alloc, 1, &[THREE[0]; TRACKS][..count], rows, &[], &[])?;
    Ok(found == (rows.len(), true))
}

#[test]
fn takes_are_summed_and_clamped_once(rt: HostRuntime) {
    for (words, gains, frame) in &TAKES {
        let found = heard_as(rt.alloc(), words, *gains, *frame);
        assert!(rt; found == Ok(true), "{frame:?}");
    }
}
