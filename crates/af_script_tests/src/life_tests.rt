use LifeState::{
    Absent, Active, Flushed, Idle, Paused, Pausing, Resuming, Stopped, Stopping1, Stopping2,
};
use af_life::{Known, Life, LifeState, fresh, new_track};

// The states in the order in which the rows below give what each becomes.
const STATES: [LifeState; 10] = [
    Absent, Idle, Active, Pausing, Paused, Resuming, Stopping1, Stopping2, Stopped, Flushed,
];

const OPENED: [LifeState; 10] = [
    Idle, Idle, Active, Pausing, Paused, Resuming, Stopping1, Stopping2, Stopped, Flushed,
];

const STARTED: [LifeState; 10] = [
    Absent, Active, Active, Active, Resuming, Active, Active, Active, Active, Active,
];

const PAUSED: [LifeState; 10] = [
    Absent, Idle, Pausing, Pausing, Paused, Pausing, Stopping1, Stopping2, Stopped, Flushed,
];

const STOPPING: [LifeState; 10] = [
    Absent, Idle, Stopping1, Stopping1, Stopping1, Stopping1, Stopping1, Stopping2, Stopped,
    Flushed,
];

const STOPPED: [LifeState; 10] = [
    Absent, Idle, Stopped, Stopped, Stopped, Stopped, Stopping1, Stopping2, Stopped, Flushed,
];

const FLUSHED: [LifeState; 10] = [
    Absent, Flushed, Active, Flushed, Flushed, Resuming, Flushed, Flushed, Flushed, Flushed,
];

fn life_in(state: LifeState, member: bool, ended: bool) -> Life {
    Life {
        state,
        member,
        ended,
        drained: true,
        retries: 7,
        stop_at: 9,
    }
}

// Each state becomes the one that stands in its place, and an ended life stays as it is.
fn goes_to(code: u32, member: bool, wants: &[LifeState; 10]) -> bool {
    for i in 0..10 {
        let after = life_in(STATES[i], member, false).on_command(code, 100);
        let ended = life_in(STATES[i], member, true);
        if after.state != wants[i]
            || after.ended != (code == 6)
            || ended.on_command(code, 100) != ended
        {
            return false;
        }
    }
    true
}

// Every code from 0 to 7, whether the life is a member, and what each state becomes.
const WALKS: [(u32, bool, &[LifeState; 10]); 16] = [
    (0, true, &STATES),
    (1, true, &OPENED),
    (2, true, &STARTED),
    (3, true, &PAUSED),
    (4, true, &STOPPING),
    (5, true, &FLUSHED),
    (6, true, &STATES),
    (7, true, &STATES),
    (0, false, &STATES),
    (1, false, &OPENED),
    (2, false, &STARTED),
    (3, false, &PAUSED),
    (4, false, &STOPPED),
    (5, false, &FLUSHED),
    (6, false, &STATES),
    (7, false, &STATES),
];

// How many of these are so, up to the first that isn't.
fn every_command_at_every_state() -> usize {
    for (i, (code, member, wants)) in WALKS.iter().enumerate() {
        if !goes_to(*code, *member, wants) {
            return i;
        }
    }
    WALKS.len()
}

fn play(member: bool, drained: bool, retries: u32, stop_at: u64, state: LifeState) -> Life {
    Life {
        state,
        member,
        ended: false,
        drained,
        retries,
        stop_at,
    }
}

#[test]
fn a_life_in_order(rt: HostRuntime) {
    let opened = fresh().on_command(1, 0);
    assert!(rt; opened == play(false, false, 50, 0, Idle));
    let started = opened.on_command(2, 3);
    assert!(rt; started == play(true, false, 50, 0, Active));
    let stopping = started.on_command(4, 1000);
    assert!(rt; stopping == play(true, false, 50, 1000, Stopping1));
    let (waiting, _) = stopping.on_report(looks(999, 0, 0, 1));
    assert!(rt; waiting == stopping);
    let (drained, _) = waiting.on_report(looks(1000, 0, 0, 0));
    assert!(rt; drained == play(true, true, 50, 1000, Stopping2));
    let (stopped, told) = drained.on_report(looks(1000, 0, 0, 0));
    assert!(rt; (stopped, told) == (play(false, true, 50, 1000, Stopped), false));
    let again = stopped.on_command(2, 0);
    assert!(rt; again == play(true, false, 50, 1000, Active));
    assert!(rt; again.state.code() == 2);
}

fn looks(consumed: u64, fulls: u32, partials: u32, empties: u32) -> Known {
    Known {
        consumed,
        fulls,
        partials,
        empties,
        shut: false,
    }
}

// What is known of a proxy after looks.
macro_rules! known {
    ($consumed:expr, $fulls:expr, $partials:expr, $empties:expr) => {
        Known {
            consumed: $consumed,
            fulls: $fulls,
            partials: $partials,
            empties: $empties,
            shut: false,
        }
    };
}

const IDLE: Known = known!(8, 0, 0, 0);

const EMPTY: Known = known!(5, 0, 0, 1);

// A state, whether the life is a member, and what is known; then the state, and whether it is a member.
const REPORTS: [(LifeState, bool, Known, LifeState, bool); 12] = [
    (Stopping1, true, known!(9, 0, 0, 0), Stopping2, true),
    (Stopping1, true, IDLE, Stopping1, true),
    (Stopping2, true, IDLE, Stopped, false),
    (Pausing, true, EMPTY, Paused, true),
    (Resuming, true, EMPTY, Active, true),
    (Active, true, EMPTY, Active, true),
    (Active, false, EMPTY, Active, false),
    (Idle, true, IDLE, Idle, false),
    (Paused, true, IDLE, Paused, false),
    (Stopped, true, IDLE, Stopped, false),
    (Flushed, true, IDLE, Flushed, false),
    (Absent, true, IDLE, Absent, true),
];

fn each_row_of_a_report() -> usize {
    for (i, (state, member, known, want, stays)) in REPORTS.iter().enumerate() {
        let (after, told) = life_in(*state, *member, false).on_report(*known);
        if after.state != *want || after.member != *stays || told || after.ended {
            return i;
        }
    }
    REPORTS.len()
}

const SHUT: Known = Known {
    consumed: 9,
    fulls: 0,
    partials: 0,
    empties: 1,
    shut: true,
};

fn shut_and_ended_lives_leave() -> usize {
    for (i, state) in STATES.iter().enumerate() {
        let gone = life_in(*state, false, true);
        let shut = life_in(*state, true, false).on_report(SHUT);
        let ended = life_in(*state, true, true).on_report(known!(9, 0, 0, 1));
        if shut != (gone, false) || ended != (gone, false) {
            return i;
        }
    }
    STATES.len()
}

// Retries before; full, partial and empty looks; then retries, member, and whether the track is to be disabled.
const RETRIES: [(u32, Known, u32, bool, bool); 7] = [
    (2, known!(0, 0, 0, 3), 1, true, false),
    (1, known!(0, 0, 0, 1), 0, false, true),
    (1, known!(0, 1, 0, 1), 49, true, false),
    (1, known!(0, 0, 2, 1), 49, true, false),
    (1, known!(0, 1, 0, 0), 50, true, false),
    (0, known!(0, 0, 0, 1), 0, false, true),
    (0, known!(0, 0, 0, 0), 0, true, false),
];

fn retries_of_a_playing_member() -> usize {
    for (i, (before, known, retries, member, told)) in RETRIES.iter().enumerate() {
        let after = play(*member, false, *retries, 0, Active);
        if play(true, false, *before, 0, Active).on_report(*known) != (after, *told) {
            return i;
        }
    }
    RETRIES.len()
}

// A status word has 24 bits for the commands settled: their count begins anew where these are full.
const WORDS: [(u64, u32); 5] = [
    (0, 0),
    (1, 0x100),
    (0x00ff_ffff, 0xffff_ff00),
    (0x0100_0000, 0),
    (0x0100_0001, 0x100),
];

fn a_status_word_begins_its_count_anew() -> usize {
    for (i, (settled, word)) in WORDS.iter().enumerate() {
        let mut track = new_track();
        track.settled = *settled;
        if track.status_word(false) != *word {
            return i;
        }
    }
    WORDS.len()
}

// How many rows of each table are so: walks, reports, states, retries and words.
#[test]
fn all_rows_are_so(rt: HostRuntime) {
    let found = [
        every_command_at_every_state(),
        each_row_of_a_report(),
        shut_and_ended_lives_leave(),
        retries_of_a_playing_member(),
        a_status_word_begins_its_count_anew(),
    ];
    assert!(rt; found == [16, 12, 10, 7, 5], "{found:?}");
}
