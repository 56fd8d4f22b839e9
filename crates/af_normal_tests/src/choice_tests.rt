//! Turns at which the description leaves two readings: each case fails under the other one.
use crate::call_tests::underruns;
use crate::rows::{BUSY_0, PUSH_1, PUSH_2, PUSH_3, PUSH_4, Row, TURNS};
use crate::table_tests::{Case, FAST, Kind, NORMAL, Plan, first_wrong, plays};
use af_base::{Command, Push};
use af_life::{OPEN, PAUSE, REMOVE, START, STOP};
use std::alloc::Global;
use std::test::*;

// A normal track whose flushes carry their position.
const PLACED: Kind = Kind {
    positional: true,
    ..NORMAL
};

const CHOICES: &[Case] = &[
    Case {
        what: "a slot is free within the turn",
        kinds: &[FAST; 2],
        sizes: (2, 1),
        rows: &[
            Row::Sends(0, OPEN, 0),
            Row::Turns(0, Push::Clean, Some(257)),
            Row::Saw(true, 8),
            Row::Sends(0, REMOVE, 0),
            Row::Sends(1, OPEN, 0),
            Row::Sends(1, START, 0),
            Row::Turns(1, PUSH_1, Some(514)),
            Row::Polls(1),
            Row::HasSlot(1, true, 1, 1),
            Row::HasSlot(2, false, 0, 0),
        ],
    },
    Case {
        what: "a proxy returns by the push of its detach",
        kinds: &[FAST],
        sizes: (2, 1),
        rows: &[
            Row::Sends(0, OPEN, 0),
            Row::Sends(0, START, 0),
            Row::Turns(0, PUSH_1, Some(514)),
            Row::Sends(0, REMOVE, 0),
            Row::Turns(0, BUSY_0, Some(770)),
            Row::Saw(false, 8),
            Row::Polls(1),
            Row::Turns(0, PUSH_2, None),
            Row::Saw(true, 8),
            Row::Polls(2),
            Row::IsTold(Command::ColdIdle, 1),
            Row::Turns(0, PUSH_3, None),
            Row::Polls(3),
            Row::IsTold(Command::Exit, 1),
            Row::Ends,
        ],
    },
    Case {
        what: "a shut track stays drained",
        kinds: &[FAST],
        sizes: (2, 1),
        rows: &[
            Row::Sends(0, OPEN, 0),
            Row::Sends(0, START, 0),
            Row::Turns(0, PUSH_1, Some(514)),
            Row::Polls(1),
            Row::Sends(0, STOP, 0),
            Row::Reports(1, 0, 0, [0, 1]),
            Row::Turns(0, Push::Clean, Some(791)),
            Row::Pokes(0, true, 1000),
            Row::Turns(0, PUSH_2, Some(799)),
            Row::Clears(0),
        ],
    },
    Case {
        what: "a start that is ignored is settled at once",
        kinds: &[FAST],
        sizes: (2, 1),
        rows: &[
            Row::Sends(0, START, 5),
            Row::Sends(0, OPEN, 0),
            Row::Turns(0, Push::Clean, Some(513)),
            Row::Sends(0, REMOVE, 0),
            Row::Sends(0, START, 5),
            Row::Sends(0, PAUSE, 0),
            Row::Turns(0, PUSH_1, Some(1281)),
            Row::Polls(1),
            Row::Ends,
        ],
    },
    Case {
        what: "half a command is not taken",
        kinds: &[FAST],
        sizes: (2, 1),
        rows: &[
            Row::Sends(0, OPEN, 0),
            Row::Pokes(0, true, 3),
            Row::Turns(0, Push::Clean, Some(257)),
            Row::Turns(0, Push::Clean, None),
            Row::Pokes(0, true, 4),
            Row::Turns(0, Push::Clean, Some(513)),
            Row::Turns(0, Push::Clean, None),
        ],
    },
    Case {
        what: "half a command is not taken",
        kinds: &[FAST],
        sizes: (2, 1),
        rows: &[
            Row::Sends(0, OPEN, 0),
            Row::Turns(0, Push::Clean, Some(257)),
            Row::Sends(0, START, 0),
            Row::FlushesCommands(0),
            Row::Turns(0, Push::Clean, None),
            Row::Sends(0, PAUSE, 0),
            Row::Turns(0, Push::Clean, Some(513)),
        ],
    },
    Case {
        what: "the command follows this turn",
        kinds: &[FAST],
        sizes: (2, 1),
        rows: &[
            Row::Sends(0, OPEN, 0),
            Row::Sends(0, START, 0),
            Row::Turns(0, PUSH_1, Some(514)),
            Row::Polls(1),
            Row::IsTold(Command::MixWrite, 0),
            Row::Sends(0, PAUSE, 0),
            Row::Turns(0, Push::Clean, Some(772)),
            Row::Turns(0, PUSH_2, None),
            Row::Polls(2),
            Row::IsTold(Command::ColdIdle, 1),
            Row::Sends(0, START, 0),
            Row::Turns(0, PUSH_3, Some(1026)),
            Row::Polls(3),
            Row::IsTold(Command::MixWrite, 1),
        ],
    },
    Case {
        what: "the command follows this turn",
        kinds: &[NORMAL],
        sizes: (2, 1),
        rows: &[
            Row::Sends(0, OPEN, 0),
            Row::Sends(0, START, 0),
            Row::Mixes(0, PUSH_1, Some(514)),
            Row::Saw(true, 8),
            Row::Sends(0, REMOVE, 0),
            Row::Polls(1),
            Row::Turns(0, Push::Clean, Some(770)),
            Row::Saw(true, 6),
            Row::IsTold(Command::MixWrite, 0),
        ],
    },
    Case {
        what: "a flush of nothing is seen",
        kinds: &[NORMAL],
        sizes: (2, 1),
        rows: &[
            Row::Sends(0, OPEN, 0),
            Row::Flushes(0),
            Row::Sends(0, START, 1),
            Row::Mixes(0, PUSH_1, Some(258)),
            Row::Clears(0),
            Row::Mixes(0, Push::Clean, Some(514)),
            Row::Clears(1),
            Row::Writes(0, 2),
        ],
    },
    Case {
        what: "a flush of nothing is seen",
        kinds: &[PLACED],
        sizes: (2, 1),
        rows: &[
            Row::Sends(0, OPEN, 0),
            Row::Flushes(0),
            Row::Sends(0, START, 1),
            Row::Mixes(0, PUSH_1, Some(258)),
            Row::Clears(0),
            Row::Mixes(0, Push::Clean, Some(514)),
            Row::Clears(1),
            Row::Writes(0, 2),
        ],
    },
    Case {
        what: "a flush comes before the rear or after it",
        kinds: &[PLACED],
        sizes: (2, 1),
        rows: &[
            Row::Sends(0, OPEN, 0),
            Row::Sends(0, START, 0),
            Row::Mixes(0, PUSH_1, Some(514)),
            Row::Flushes(0),
            Row::Pokes(0, false, 1000),
            Row::Mixes(0, Push::Clean, None),
            Row::Turns(0, Push::Clean, Some(527)),
        ],
    },
    Case {
        what: "a flush comes before the rear or after it",
        kinds: &[NORMAL],
        sizes: (2, 1),
        rows: &[
            Row::Sends(0, OPEN, 0),
            Row::Sends(0, START, 0),
            Row::Mixes(0, PUSH_1, Some(514)),
            Row::Flushes(0),
            Row::Pokes(0, false, 1000),
            Row::Mixes(0, Push::Clean, None),
            Row::Mixes(0, Push::Clean, None),
        ],
    },
];

#[test]
fn each_turn_is_read_as_described(rt: HostRuntime) {
    assert_eq!(rt; first_wrong(rt.alloc(), CHOICES), "");
}

const BEGUN: &[Row] = &[
    Row::Sends(0, OPEN, 0),
    Row::Sends(0, START, 0),
    Row::Turns(0, PUSH_1, Some(514)),
    Row::Polls(1),
];

// Each of up to 49 underruns in a row is reported, then the report of another attachment comes, and then that of before again; behind each report comes a turn.
fn reported_again() -> [Row; 294] {
    let mut rows = [TURNS; 294];
    let mut empties: u32 = 1;
    for (i, row) in rows.iter_mut().enumerate() {
        match i % 6 {
            0 => *row = Row::Reports(1, 0, 0, [0, empties]),
            2 => *row = Row::Reports(0, 0, 0, [0, 0]),
            4 => {
                *row = Row::Reports(1, 0, 0, [0, empties]);
                empties = empties.wrapping_add(1);
            }
            _ => {}
        }
    }
    rows
}

// Fifty underruns in a row, of which only the first of three reports is news.
const FIFTIETH: &[Row] = &[
    Row::Clears(0),
    Row::Reports(1, 0, 0, [0, 50]),
    Row::TurnsOff(PUSH_2),
    Row::Clears(8),
];

// A track had forty underruns, was paused and started again.
const FORTY_BEFORE: &[Row] = &[
    Row::Reports(1, 0, 0, [0, 40]),
    TURNS,
    Row::Sends(0, PAUSE, 0),
    Row::Turns(0, Push::Clean, Some(772)),
    Row::Turns(0, PUSH_2, None),
    Row::Polls(2),
    Row::Sends(0, START, 0),
    Row::Turns(0, PUSH_3, Some(1026)),
    Row::Polls(3),
    Row::HasSlot(1, true, 0, 2),
];

// Those of the new attachment are counted from nothing: the fiftieth disables.
const FIFTIETH_ANEW: &[Row] = &[Row::Reports(2, 0, 0, [0, 50]), Row::TurnsOff(PUSH_4)];

// Whether fifty underruns in a row disable the track, though each is reported three times.
fn is_reported_again(alloc: Global) -> bool {
    let many = reported_again();
    plays(alloc, &[FAST], 1, 1, Plan::Rows(&[BEGUN, &many, FIFTIETH]))
}

// Whether the fiftieth underrun of a new attachment disables the track.
fn is_counted_anew(alloc: Global) -> bool {
    let many = underruns(2);
    let rows = [BEGUN, FORTY_BEFORE, &many, FIFTIETH_ANEW];
    plays(alloc, &[FAST], 1, 1, Plan::Rows(&rows))
}

#[test]
fn counts_are_those_since_the_last_one_seen(rt: HostRuntime) {
    assert!(rt; is_reported_again(rt.alloc()));
    assert!(rt; is_counted_anew(rt.alloc()));
}
