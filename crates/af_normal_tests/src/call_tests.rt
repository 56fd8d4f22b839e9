//! What turns answer, store and push, by tables of steps.
use crate::rows::{BUSY_0, BUSY_1, BUSY_2, MIXES, PUSH_1, PUSH_2, PUSH_3, PUSH_4, Row, TURNS};
use crate::table_tests::{Case, FAST, Kind, NORMAL, Plan, first_wrong, plays};
use af_base::Push;
use af_life::{OPEN, PAUSE, REMOVE, START, STOP};
use std::test::*;

// A normal track of one channel.
const MONO: Kind = Kind {
    mono: true,
    ..NORMAL
};

const CALLS: &[Case] = &[
    Case {
        what: "a start waits until its flush was seen",
        kinds: &[FAST],
        sizes: (2, 1),
        rows: &[
            Row::Sends(0, OPEN, 0),
            Row::Writes(0, 3),
            Row::Flushes(0),
            Row::Writes(0, 2),
            Row::Flushes(0),
            Row::Sends(0, START, 2),
            Row::Sends(0, PAUSE, 0),
            Row::Turns(0, PUSH_1, Some(258)),
            Row::Polls(1),
            Row::Reports(1, 3, 1, [0, 0]),
            Row::Turns(0, Push::Clean, None),
            Row::Reports(1, 5, 2, [0, 0]),
            Row::Turns(0, Push::Clean, Some(772)),
        ],
    },
    Case {
        what: "a stop is drained once all was mixed",
        kinds: &[FAST],
        sizes: (2, 1),
        rows: &[
            Row::Sends(0, OPEN, 0),
            Row::Sends(0, START, 0),
            Row::Turns(0, PUSH_1, Some(514)),
            Row::Polls(1),
            Row::Reports(1, 0, 0, [0, 1]),
            Row::Writes(0, 4),
            Row::Sends(0, STOP, 4),
            Row::Turns(0, Push::Clean, Some(774)),
            Row::Reports(1, 2, 0, [1, 1]),
            Row::Turns(0, Push::Clean, None),
            Row::Reports(1, 4, 0, [2, 1]),
            Row::Turns(0, Push::Clean, Some(791)),
            Row::Turns(0, PUSH_2, Some(792)),
        ],
    },
    Case {
        what: "an exit waits for the proxy",
        kinds: &[FAST],
        sizes: (2, 1),
        rows: &[
            Row::Sends(0, OPEN, 0),
            Row::Sends(0, START, 0),
            Row::Turns(0, PUSH_1, Some(514)),
            Row::Saw(true, 8),
            Row::Turns(0, Push::Clean, None),
            Row::Saw(false, 8),
            Row::Polls(1),
            Row::HasSlot(1, true, 0, 1),
            Row::Reports(1, 0, 0, [0, 1]),
            Row::Sends(0, STOP, 0),
            Row::Turns(0, Push::Clean, Some(791)),
            Row::Turns(0, PUSH_2, Some(792)),
            Row::Status(792),
            Row::Sends(0, REMOVE, 0),
            Row::Turns(0, Push::Clean, Some(1048)),
            Row::Polls(2),
            Row::HasSlot(1, false, 0, 1),
            Row::Turns(0, PUSH_3, None),
            Row::Turns(0, Push::Clean, None),
            Row::Polls(3),
            Row::Ends,
            Row::Saw(true, 0),
            Row::Ends,
        ],
    },
    Case {
        what: "a slot is free once its proxy is home",
        kinds: &[FAST; 3],
        sizes: (1, 1),
        rows: &[
            Row::Sends(0, OPEN, 0),
            Row::Sends(0, START, 0),
            Row::Turns(0, PUSH_1, Some(514)),
            Row::Polls(1),
            Row::Sends(0, REMOVE, 0),
            Row::Turns(0, PUSH_2, Some(770)),
            Row::Sends(1, OPEN, 0),
            Row::Sends(1, START, 0),
            Row::Turns(1, BUSY_1, Some(514)),
            Row::Polls(2),
            Row::Turns(1, PUSH_3, None),
            Row::Sends(2, OPEN, 0),
            Row::Sends(2, START, 0),
            Row::Turns(2, BUSY_2, Some(514)),
            Row::Polls(3),
            Row::HasSlot(1, false, 0, 1),
            Row::HasSlot(2, true, 1, 1),
            Row::Turns(2, PUSH_4, None),
            Row::Polls(4),
            Row::HasSlot(1, true, 2, 2),
        ],
    },
    Case {
        what: "a pause sends the proxy home and a start out again",
        kinds: &[FAST],
        sizes: (2, 1),
        rows: &[
            Row::Sends(0, OPEN, 0),
            Row::Sends(0, START, 0),
            Row::Turns(0, PUSH_1, Some(514)),
            Row::Writes(0, 4),
            Row::Sends(0, PAUSE, 0),
            Row::Turns(0, Push::Clean, Some(772)),
            Row::Polls(1),
            Row::Reports(1, 2, 0, [1, 0]),
            Row::Turns(0, PUSH_2, None),
            Row::Polls(2),
            Row::Reports(1, 2, 0, [1, 0]),
            Row::Sends(0, START, 0),
            Row::Turns(0, PUSH_3, Some(1026)),
            Row::Polls(3),
            Row::HasSlot(1, true, 0, 2),
        ],
    },
    Case {
        what: "a normal track is mixed here",
        kinds: &[MONO],
        sizes: (2, 2),
        rows: &[
            Row::Sends(0, OPEN, 0),
            Row::Sends(0, START, 0),
            Row::Mixes(0, PUSH_1, Some(514)),
            Row::Clears(1),
            Row::Writes(0, 5),
            Row::Mixes(0, Push::Clean, None),
            Row::Hears([0, 0, 0, 0]),
            Row::Hears([1, 2, 3, 4]),
            Row::Mixes(0, Push::Clean, None),
            Row::Hears([5, 0, 0, 0]),
        ],
    },
    Case {
        what: "a normal track is mixed here",
        kinds: &[MONO],
        sizes: (3, 2),
        rows: &[
            Row::Sends(0, OPEN, 0),
            Row::Sends(0, START, 0),
            Row::Mixes(0, PUSH_1, Some(514)),
            Row::Saw(true, 24),
            MIXES,
            MIXES,
            MIXES,
            Row::Saw(false, 6),
            TURNS,
            Row::Saw(false, 0),
            Row::Hears([0; 4]),
            TURNS,
            Row::Hears([0; 4]),
            MIXES,
            TURNS,
        ],
    },
    Case {
        what: "a shut block ends its track",
        kinds: &[NORMAL],
        sizes: (2, 2),
        rows: &[
            Row::Sends(0, OPEN, 0),
            Row::Sends(0, START, 0),
            Row::Mixes(0, PUSH_1, Some(514)),
            Row::Pokes(0, false, 1000),
            Row::Mixes(0, Push::Clean, None),
            Row::Turns(0, Push::Clean, Some(527)),
            Row::Clears(5),
            Row::Turns(0, Push::Clean, None),
            Row::Hears([0; 4]),
            Row::Hears([0; 4]),
            Row::Polls(1),
            Row::Turns(0, PUSH_2, None),
        ],
    },
    Case {
        what: "a shut block ends its track",
        kinds: &[FAST],
        sizes: (2, 2),
        rows: &[
            Row::Sends(0, OPEN, 0),
            Row::Turns(0, Push::Clean, Some(257)),
            Row::Pokes(0, true, 1000),
            Row::Turns(0, PUSH_1, Some(271)),
            Row::Clears(4),
            Row::Polls(1),
            Row::Ends,
        ],
    },
    Case {
        what: "a lent proxy marks nothing",
        kinds: &[FAST],
        sizes: (2, 2),
        rows: &[
            Row::Sends(0, OPEN, 0),
            Row::Sends(0, START, 0),
            Row::Turns(0, PUSH_1, Some(514)),
            Row::Polls(1),
            Row::Pokes(0, true, 1000),
            Row::Turns(0, PUSH_2, Some(527)),
            Row::Polls(2),
            Row::Turns(0, PUSH_3, None),
            Row::Clears(0),
            Row::Polls(3),
            Row::Ends,
        ],
    },
    Case {
        what: "a mix follows each push",
        kinds: &[NORMAL, FAST],
        sizes: (2, 2),
        rows: &[
            Row::Sends(0, OPEN, 0),
            Row::Sends(0, START, 0),
            Row::Writes(0, 4),
            Row::Mixes(0, PUSH_1, Some(514)),
            Row::Clears(0),
            Row::Flushes(0),
            Row::Sends(0, START, 1),
            Row::Sends(1, OPEN, 0),
            Row::Sends(1, START, 0),
            Row::Mixes(0, BUSY_0, None),
            Row::Clears(0),
            Row::Mixes(0, BUSY_0, Some(770)),
            Row::Clears(1),
            Row::Sends(0, PAUSE, 0),
            Row::Polls(1),
            Row::Mixes(0, PUSH_2, Some(1028)),
            Row::Turns(0, Push::Clean, None),
        ],
    },
];

#[test]
fn turns_answer_store_and_push(rt: HostRuntime) {
    assert_eq!(rt; first_wrong(rt.alloc(), CALLS), "");
}

const BEGUN: &[Row] = &[
    Row::Sends(0, OPEN, 0),
    Row::Sends(0, START, 0),
    Row::Turns(0, PUSH_1, Some(514)),
    Row::Polls(1),
];

// Reports of up to 49 underruns in a row, each with a turn behind it.
pub(crate) fn underruns(generation: u64) -> [Row; 98] {
    let mut rows = [TURNS; 98];
    let mut empties: u32 = 1;
    for (i, row) in rows.iter_mut().enumerate() {
        if i % 2 == 0 {
            *row = Row::Reports(generation, 0, 0, [0, empties]);
            empties = empties.wrapping_add(1);
        }
    }
    rows
}

const DISABLED_ONCE: &[Row] = &[
    Row::Reports(1, 0, 0, [0, 50]),
    Row::TurnsOff(PUSH_2),
    Row::Reports(1, 0, 0, [0, 51]),
    TURNS,
    Row::Clears(8),
    Row::Polls(2),
    Row::Sends(0, START, 0),
    Row::Turns(0, PUSH_3, Some(770)),
];

// Fifty underruns in a row disable the track, once.
#[test]
fn fifty_underruns_disable_once(rt: HostRuntime) {
    let many = underruns(1);
    let rows = [BEGUN, &many, DISABLED_ONCE];
    assert!(rt; plays(rt.alloc(), &[FAST], 1, 1, Plan::Rows(&rows)));
}

// All 32 tracks are opened and started.
fn all_start() -> [Row; 64] {
    let mut rows = [TURNS; 64];
    for (i, row) in rows.iter_mut().enumerate() {
        let code = if i % 2 == 0 { OPEN } else { START };
        *row = Row::Sends(i / 2, code, 0);
    }
    rows
}

const LAST_IS_MIXED: &[Row] = &[
    Row::Writes(31, 5),
    Row::Mixes(31, PUSH_1, Some(514)),
    Row::Polls(1),
    Row::HasSlot(31, true, 30, 1),
    Row::Hears([1, 2, 3, 4]),
];

// The last of 32 fast tracks, for which no slot is left, is mixed here.
#[test]
fn a_fast_track_without_a_slot_is_mixed_here(rt: HostRuntime) {
    let starts = all_start();
    let rows = [starts.as_slice(), LAST_IS_MIXED];
    assert!(rt; plays(rt.alloc(), &[FAST; 32], 4, 1, Plan::Rows(&rows)));
}
