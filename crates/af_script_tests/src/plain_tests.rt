//! Sessions of three tracks, of which the first two are fast, in turns of the plain mixer. What each turn leaves was worked out by hand.
ghost use Rattle.std.specs.Prelude.{◌≡◌, IfOk};
ghost use Rattle.af_life.specs.Small.{IsSmall};

use Holder::{Home, Lent, Returning};
use LifeState::{Absent, Active, Idle, Stopped, Stopping1, Stopping2};
use Push::{Busy, Clean, Pushed};
use af_base::{
    CommandLook, CommandLooks, Memory, Push, Report, SLOTS, Seen, SlotReport, TrackTurn, TurnEntry,
};
use af_life::{Heard, Holder, Known, LifeState, PlainMixer, Setting, TrackKept, turn_weight};
use std::alloc::Global;
use std::mem::drop;

const ROOM: u32 = 4;

// What is known of a proxy that has done nothing.
const NOTHING_HEARD: Heard = Heard {
    known: Known {
        consumed: 0,
        fulls: 0,
        partials: 0,
        empties: 0,
        shut: false,
    },
    flush_seen: 0,
};

// What a turn saw of the first slot, of the push, and at the commands of two tracks. A report says nothing if it has another generation.
#[derive(Clone, Copy)]
struct Step {
    ack: bool,
    push: Push,
    report: SlotReport,
    first: Looks,
    second: Looks,
    wants: (Want, Want),
}

// What a turn saw at the commands of a track.
type Looks = (CommandLook, CommandLook, CommandLook);

// What a turn leaves of a track.
#[derive(Clone, Copy, PartialEq, Eq)]
struct Want {
    state: LifeState,
    holder: Holder,
    slot: Option<u32>,
    retries: u32,
    settled: u64,
    status: u32,
}

// A look at a track's commands.
macro_rules! look {
    ($seen:expr, $code:expr, $argument:expr) => {
        CommandLook {
            flush: 0,
            rear: 0,
            seen: $seen,
            code: $code,
            argument: $argument,
        }
    };
}

macro_rules! command {
    ($code:expr, $argument:expr) => {
        look!(Seen::Frames { count: 2 }, $code, $argument)
    };
}

const NOTHING: CommandLook = look!(Seen::Empty, 0, 0);

const OPEN: CommandLook = command!(1, 0);

const START: CommandLook = command!(2, 0);

const REMOVE: CommandLook = command!(6, 0);

const QUIET: Looks = (NOTHING, NOTHING, NOTHING);

macro_rules! reported {
    ($generation:expr, $consumed:expr, $empties:expr) => {
        SlotReport {
            consumed: $consumed,
            shut: false,
            generation: $generation,
            flush_seen: 0,
            fulls: 0,
            partials: 0,
            empties: $empties,
        }
    };
}

macro_rules! left {
    ($state:expr, $holder:expr, $slot:expr, $retries:expr, $settled:expr, $status:expr) => {
        Want {
            state: $state,
            holder: $holder,
            slot: $slot,
            retries: $retries,
            settled: $settled,
            status: $status,
        }
    };
}

const UNHEARD: Want = left!(Absent, Home, None, 50, 0, 0);

fn is_wanted(track: TrackKept, want: Want) -> bool {
    let found = Want {
        state: track.life.state,
        holder: track.holder,
        slot: track.slot,
        retries: track.life.retries,
        settled: track.settled,
        status: track.status,
    };
    found == want
}

fn seen(alloc: Global, looks: Looks) -> Result<TrackTurn, Memory> {
    let mut list = CommandLooks::with_room(alloc, 3)?;
    list.push(looks.0);
    list.push(looks.1);
    list.push(looks.2);
    Ok(TrackTurn {
        looks: list,
        status: None,
        disabled: false,
    })
}

fn entry_of(alloc: Global, step: &Step) -> Result<TurnEntry, Memory> {
    let first = seen(alloc, step.first)?;
    let Ok(second) = seen(alloc, step.second) else {
        drop(first);
        return Err(Memory);
    };
    let Ok(mut entry) = TurnEntry::with_room(alloc, 2, 0) else {
        drop(first);
        drop(second);
        return Err(Memory);
    };
    entry.ended = false;
    entry.room = ROOM;
    entry.ack = step.ack;
    entry.push = step.push;
    entry.tracks.push(first);
    entry.tracks.push(second);
    Ok(entry)
}

// The tracks of a session: two fast ones and a normal one.
fn new_mixer(alloc: Global) -> Result<PlainMixer, Memory>
    ensures { IfOk result (λ m. IsSmall m.turns m.setup m.kept) }
{
    let fast = Setting {
        fast: true,
        mono: false,
        scale: 0x1000,
    };
    let normal = Setting {
        fast: false,
        ..fast
    };
    let settings = vec![in alloc; fast, fast, normal]?;
    PlainMixer::new(alloc, 1, 1, settings)
}

// Makes a turn; whether it left what was wanted.
fn leaves(mixer: &mut PlainMixer, entry: &TurnEntry, step: &Step) -> bool
    requires { IsSmall mixer.old.turns mixer.old.setup mixer.old.kept }
    ensures { IsSmall mixer.new.turns mixer.new.setup mixer.new.kept }
{
    let mut slots = [reported!(0, 0, 0); SLOTS];
    slots[1] = step.report;
    let report = Report { cycle: 0, slots };
    let own = [NOTHING_HEARD; 3];
    let few = entry.mixes.as_slice().len() <= 32 && turn_weight(entry) <= 1;
    if !few || mixer.turns() >= 131072 || mixer.tracks().len() != own.len() {
        return false;
    }
    mixer.turn(&report, &own, entry);
    let tracks = mixer.tracks();
    let (first, second) = step.wants;
    is_wanted(tracks[0], first) && is_wanted(tracks[1], second)
}

// Makes turns; how many leave what is wanted, up to the first that doesn't.
fn turns(alloc: Global, mixer: &mut PlainMixer, steps: &[Step]) -> Result<usize, Memory>
    requires { IsSmall mixer.old.turns mixer.old.setup mixer.old.kept }
{
    for i in 0..steps.len() {
        let entry = entry_of(alloc, &steps[i])?;
        let left = leaves(mixer, &entry, &steps[i]);
        drop(entry);
        if !left {
            return Ok(i);
        }
    }
    Ok(steps.len())
}

// Makes turns from the start.
fn played(alloc: Global, steps: &[Step]) -> Result<usize, Memory> {
    let mut mixer = new_mixer(alloc)?;
    let played = turns(alloc, &mut mixer, steps);
    drop(mixer);
    played
}

// A turn in which only the first track has commands, and the second was never opened.
macro_rules! alone {
    ($ack:expr, $push:expr, $report:expr, $first:expr, $wanted:expr) => {
        Step {
            ack: $ack,
            push: $push,
            report: $report,
            first: $first,
            second: QUIET,
            wants: ($wanted, UNHEARD),
        }
    };
}

macro_rules! quiet {
    ($ack:expr, $push:expr, $report:expr, $wanted:expr) => {
        alone!($ack, $push, $report, QUIET, $wanted)
    };
}

const OPENED: Step = alone!(
    true,
    Pushed { number: 1 },
    reported!(0, 0, 0),
    (OPEN, START, NOTHING),
    left!(Active, Lent, Some(1), 50, 2, 514)
);

// A stop waits until all is consumed.
const STOPS: [Step; 6] = [
    OPENED,
    alone!(
        true,
        Clean,
        reported!(1, 2, 0),
        (command!(4, 3), NOTHING, NOTHING),
        left!(Stopping1, Lent, Some(1), 50, 3, 774)
    ),
    quiet!(
        true,
        Clean,
        reported!(1, 2, 1),
        left!(Stopping1, Lent, Some(1), 50, 3, 774)
    ),
    quiet!(
        true,
        Clean,
        reported!(1, 3, 1),
        left!(Stopping2, Lent, Some(1), 50, 3, 791)
    ),
    quiet!(
        true,
        Pushed { number: 2 },
        reported!(1, 3, 2),
        left!(Stopped, Returning, Some(1), 50, 3, 792)
    ),
    quiet!(
        true,
        Clean,
        reported!(1, 3, 2),
        left!(Stopped, Home, Some(1), 50, 3, 792)
    ),
];

macro_rules! playing {
    ($retries:expr) => {
        left!(Active, Lent, Some(1), $retries, 2, 514)
    };
}

// Empty looks of this attachment cost retries.
const EMPTIES: [Step; 5] = [
    OPENED,
    quiet!(true, Clean, reported!(0, 9, 7), playing!(50)),
    quiet!(true, Clean, reported!(1, 0, 1), playing!(49)),
    quiet!(true, Clean, reported!(1, 0, 4), playing!(48)),
    quiet!(true, Clean, reported!(1, 0, 4), playing!(48)),
];

macro_rules! gone {
    ($holder:expr) => {
        left!(Active, $holder, Some(1), 50, 3, 770)
    };
}

// A proxy comes home once no pushed state has it. A detach that a push couldn't carry stands in the draft alone: the last state pushed still has the proxy, so an acknowledgement of it brings nothing.
const COMES_HOME: [Step; 4] = [
    OPENED,
    alone!(
        false,
        Busy {
            seen: 0,
            expected: 1,
        },
        reported!(0, 0, 0),
        (REMOVE, NOTHING, NOTHING),
        gone!(Returning)
    ),
    quiet!(
        true,
        Pushed { number: 2 },
        reported!(1, 0, 0),
        gone!(Returning)
    ),
    quiet!(true, Clean, reported!(1, 0, 0), gone!(Home)),
];

// The commands of one turn, and what they leave of the first track.
macro_rules! one_turn {
    ($first:expr, $wanted:expr) => {
        [alone!(true, Clean, reported!(0, 0, 0), $first, $wanted)]
    };
}

// A START of a track that isn't there is settled as it is taken.
const EARLY: [Step; 1] = one_turn!(
    (START, NOTHING, OPEN),
    left!(Absent, Home, None, 50, 1, 256)
);

// A START of a flush count that was not seen is obeyed, and waits.
const WAITS: [Step; 1] = one_turn!(
    (OPEN, command!(2, 3), OPEN),
    left!(Active, Lent, Some(1), 50, 1, 258)
);

// The looks go on after a remove.
const GOES_ON: [Step; 1] = one_turn!(
    (OPEN, REMOVE, START),
    left!(Idle, Home, Some(1), 50, 3, 769)
);

// A look that shows half a command ends them.
const HALF: [Step; 1] = one_turn!(
    (OPEN, look!(Seen::Frames { count: 1 }, 1, 0), START),
    left!(Idle, Home, Some(1), 50, 1, 257)
);

// A look that finds the block shut ends them.
const SHUT: [Step; 1] = one_turn!(
    (OPEN, look!(Seen::Shut { front: 9, rear: 0 }, 0, 0), START),
    left!(Idle, Home, Some(1), 50, 1, 271)
);

// A code that is no command's is settled.
const UNKNOWN: [Step; 1] = one_turn!(
    (OPEN, command!(9, 0), NOTHING),
    left!(Idle, Home, Some(1), 50, 2, 513)
);

const ENDED: Want = left!(Idle, Home, Some(1), 50, 2, 513);

// A slot is free as soon as its track has ended and its proxy is home, also in the middle of a turn.
const AT_ONCE: [Step; 1] = [Step {
    ack: true,
    push: Clean,
    report: reported!(0, 0, 0),
    first: (OPEN, REMOVE, NOTHING),
    second: (OPEN, START, NOTHING),
    wants: (ENDED, left!(Active, Lent, Some(1), 50, 2, 514)),
}];

// A proxy that is still away keeps the slot.
const LATER: [Step; 2] = [
    OPENED,
    Step {
        ack: true,
        push: Pushed { number: 2 },
        report: reported!(1, 0, 0),
        first: (REMOVE, NOTHING, NOTHING),
        second: (OPEN, START, NOTHING),
        wants: (
            left!(Active, Returning, Some(1), 50, 3, 770),
            left!(Active, Lent, Some(2), 50, 2, 514),
        ),
    },
];

const SESSIONS: [(&str, &[Step]); 11] = [
    ("a stop waits until all is consumed", &STOPS),
    ("empty looks of this attachment cost retries", &EMPTIES),
    ("a proxy comes home", &COMES_HOME),
    ("an early start", &EARLY),
    ("a start that waits", &WAITS),
    ("commands behind a remove", &GOES_ON),
    ("half a command", &HALF),
    ("a shut block", &SHUT),
    ("an unknown code", &UNKNOWN),
    ("a slot given again at once", &AT_ONCE),
    ("a slot that is kept", &LATER),
];

#[test]
fn sessions_leave_what_is_wanted(rt: HostRuntime) {
    for (name, steps) in &SESSIONS {
        let found = played(rt.alloc(), steps);
        assert!(rt; found == Ok(steps.len()), "{name}");
    }
}
