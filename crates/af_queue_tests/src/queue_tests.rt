//! The state queue on one thread.
ghost use Rattle.std.specs.Prelude.{◌≡◌, ◌<◌, ◌≤◌, ◌+◌, ◌^◌, false, true, length, Some};
ghost use Rattle.af_model.specs.StateQueue.{slots};
ghost use Rattle.af_stateq.specs.Observes.{InOrder};
ghost use Rattle.af_stateq.specs.Answers.{SameDraft};

use af_base::{Command, FastState, Memory, Push, SLOTS, Steps};
use af_model::carries_item;
use af_stateq::{Fits, Mutator, Observer, Poll, Queue, queue};
use std::alloc::Global;
use std::marker::Brand;
use std::mem::drop;
use std::sync::ledger::{Blank, Ledger};
use std::test::*;

/// An item is the number of its track.
pub(crate) struct ByNumber;

impl Fits<u32> for ByNumber {
    type Key = ();

    ghost fits = { λ key track item. item ≡ track };
}

pub(crate) type Line = Queue<u32, ByNumber>;

pub(crate) type Pushing = Mutator<u32, ByNumber>;

pub(crate) type Polling = Observer<u32, ByNumber>;

// Attaches a track if the slot is free, and says whether it was.
pub(crate) fn attach(mutator: &mut Pushing, slot: u32, track: u32) -> bool
    requires idle { mutator.old.editing ≡ false }
    requires slot { (1 ≤ slot) × (slot < slots) }
    ensures same { (mutator.new.past ≡ mutator.old.past) × (mutator.new.editing ≡ false) }
{
    let draft = *mutator.draft();
    if !mutator.is_free(slot)
        || draft.tracks_gen > 999_999
        || draft.slots[slot as usize].generation > 999_999
    {
        return false;
    }
    mutator.begin();
    mutator.attach(slot, false, 0x1000, track, track);
    mutator.end(true);
    true
}

// Detaches a slot if it is active, and says whether it was.
pub(crate) fn detach(mutator: &mut Pushing, slot: u32) -> bool
    requires idle { mutator.old.editing ≡ false }
    requires slot { (1 ≤ slot) × (slot < slots) }
    ensures same { (mutator.new.past ≡ mutator.old.past) × (mutator.new.editing ≡ false) }
{
    let draft = *mutator.draft();
    if !carries_item(&draft, slot as usize) || draft.tracks_gen > 999_999 {
        return false;
    }
    mutator.begin();
    mutator.detach(slot);
    mutator.end(true);
    true
}

// Sets the command, and leaves the draft dirty.
pub(crate) fn command(mutator: &mut Pushing, command: Command)
    requires idle { mutator.old.editing ≡ false }
    ensures same { (mutator.new.past ≡ mutator.old.past) × (mutator.new.editing ≡ false) }
{
    let draft = *mutator.draft();
    mutator.begin();
    if draft.cold_gen < 999_999 {
        mutator.set_command(command);
    }
    mutator.end(true);
}

fn mask_of(state: Option<&FastState>) -> u32 {
    match state {
        Some(state) => state.mask,
        None => 0,
    }
}

// Three edits, of which two are squashed into one state.
fn squashes<L: Ledger>(alloc: Global, blank: Blank) -> Result<bool, Memory>
    requires name { blank.name ≡ L.name }
    requires parts { (blank.parts ≡ L.parts) × (0 < blank.parts) }
{
    let (line, mut mutator, mut observer) = queue::<u32, ByNumber>(alloc, 4, ())?;
    let mut steps = Steps::<L>::start(blank);
    attach(&mut mutator, 1, 10);
    let first = mutator.push(&line, &mut steps);
    attach(&mut mutator, 2, 11);
    let second = mutator.push(&line, &mut steps);
    attach(&mut mutator, 3, 12);
    let seen = observer.poll(&line, &mut steps);
    let mask = mask_of(observer.current());
    let third = mutator.push(&line, &mut steps);
    let next = observer.poll(&line, &mut steps);
    let busy = Push::Busy {
        seen: 0,
        expected: 1,
    };
    let last = mask_of(observer.current());
    drop(observer);
    drop(mutator);
    drop(line);
    let pushes = [first, second, third]
        == [Push::Pushed { number: 1 }, busy, Push::Pushed { number: 2 }];
    let polls = [seen, next] == [Poll::New { number: 1 }, Poll::New { number: 2 }];
    Ok(pushes && polls && mask == 3 && last == 15)
}

#[test]
fn edits_before_a_push_are_squashed(rt: HostRuntime) {
    assert!(rt; squashes::<Brand>(rt.alloc(), Blank::new(1)) == Ok(true));
}

// A call on one of the ends, or a look at what it has.
#[derive(Clone, Copy)]
enum Call {
    Attach { slot: u32, track: u32 },
    Detach { slot: u32 },
    Set { command: Command },
    Push,
    Acked,
    TakeBack { slot: u32 },
    Generation,
    Poll,
    Masks,
}

#[derive(Clone, Copy, PartialEq, Eq)]
enum Answer {
    Done,
    Is { so: bool },
    Pushed { push: Push },
    Back { item: Option<u32> },
    // The generation of slot 1.
    Generation { number: u64 },
    Polled { poll: Poll },
    // The masks of the current and of the previous state.
    Masks { current: u32, previous: u32 },
}

// What a call on the mutator answers.
fn ask_mutator<L: Ledger>(
    line: &Line,
    mutator: &mut Pushing,
    call: Call,
    steps: &mut Steps<L>,
) -> Answer
    requires ready { (mutator.old.editing ≡ false) × (mutator.old.past.queue ≡ line.now) × (mutator.old.past.number < 1000) }
    ensures ready { (mutator.new.editing ≡ false) × (mutator.new.past.queue ≡ line.now) × (mutator.new.past.number ≤ mutator.old.past.number + 1) }
{
    match call {
        Call::Attach { slot, track } if 1 <= slot && slot < SLOTS as u32 => Answer::Is {
            so: attach(mutator, slot, track),
        },
        Call::Detach { slot } if 1 <= slot && slot < SLOTS as u32 => Answer::Is {
            so: detach(mutator, slot),
        },
        Call::TakeBack { slot } if 1 <= slot && slot < SLOTS as u32 => Answer::Back {
            item: mutator.take_back(slot),
        },
        Call::Set { command: next } => {
            command(mutator, next);
            Answer::Done
        }
        Call::Push => Answer::Pushed {
            push: mutator.push(line, steps),
        },
        Call::Acked => Answer::Is {
            so: mutator.acked(line, steps),
        },
        _ => Answer::Generation {
            number: mutator.draft().slots[1].generation,
        },
    }
}

// What a call on the observer answers.
fn ask_observer<L: Ledger>(
    line: &Line,
    observer: &mut Polling,
    call: Call,
    steps: &mut Steps<L>,
) -> Answer
    requires ready { (observer.old.past.queue ≡ line.now) × (observer.old.past.number < 1000) }
    requires order { InOrder (λ key track item. item ≡ track) observer.old }
    ensures ready { (observer.new.past.queue ≡ line.now) × (observer.new.past.number ≤ observer.old.past.number + 1) }
    ensures order { InOrder (λ key track item. item ≡ track) observer.new }
{
    match call {
        Call::Poll => Answer::Polled {
            poll: observer.poll(line, steps),
        },
        _ => Answer::Masks {
            current: mask_of(observer.current()),
            previous: mask_of(observer.previous()),
        },
    }
}

// The place of the first call that answers something else than the rows say, if one does.
fn first_wrong<L: Ledger>(
    line: &Line,
    mutator: &mut Pushing,
    observer: &mut Polling,
    rows: &[(Call, Answer)],
    steps: &mut Steps<L>,
) -> Option<usize>
    requires few { length rows.now ≤ 1000 }
    requires mutator { (mutator.old.editing ≡ false) × (mutator.old.past.queue ≡ line.now) × (mutator.old.past.number ≡ 0) }
    requires observer { (observer.old.past.queue ≡ line.now) × (observer.old.past.number ≡ 0) }
    requires order { InOrder (λ key track item. item ≡ track) observer.old }
{
    for i in 0..rows.len() {
        let (call, wanted) = rows[i];
        let found = match call {
            Call::Poll | Call::Masks => ask_observer(line, observer, call, steps),
            _ => ask_mutator(line, mutator, call, steps),
        };
        if found != wanted {
            return Some(i);
        }
    }
    None
}

// The place of the first wrong answer on a new queue, and whether the observer then holds the item of a slot.
fn first_wrong_of_new<L: Ledger>(
    alloc: Global,
    blank: Blank,
    frames: u32,
    slot: u32,
    rows: &[(Call, Answer)],
) -> Result<(Option<usize>, bool), Memory>
    requires name { blank.name ≡ L.name }
    requires parts { (blank.parts ≡ L.parts) × (0 < blank.parts) }
{
    let mut made = queue::<u32, ByNumber>(alloc, frames, ())?;
    let mut steps = Steps::<L>::start(blank);
    let rows = &rows[..rows.len().min(1000)];
    let wrong = first_wrong(&made.0, &mut made.1, &mut made.2, rows, &mut steps);
    let held = made.2.item(slot).is_some();
    drop(made);
    Ok((wrong, held))
}

macro_rules! is {
    ($call:expr, $so:expr) => {
        ($call, Answer::Is { so: $so })
    };
}

macro_rules! attaches {
    ($slot:expr, $track:expr, $so:expr) => {
        is!(
            Call::Attach {
                slot: $slot,
                track: $track,
            },
            $so
        )
    };
}

macro_rules! set {
    ($command:expr) => {
        (Call::Set { command: $command }, Answer::Done)
    };
}

macro_rules! push {
    ($push:expr) => {
        (Call::Push, Answer::Pushed { push: $push })
    };
}

macro_rules! pushes {
    ($number:expr) => {
        push!(Push::Pushed { number: $number })
    };
}

macro_rules! poll {
    ($poll:expr) => {
        (Call::Poll, Answer::Polled { poll: $poll })
    };
}

macro_rules! polls {
    ($number:expr) => {
        poll!(Poll::New { number: $number })
    };
}

macro_rules! takes_back {
    ($item:expr) => {
        (Call::TakeBack { slot: 1 }, Answer::Back { item: $item })
    };
}

// Five states, each polled before the next, and a sixth push before the fifth is polled: the fifth lies in the first cell.
const RECYCLED: [(Call, Answer); 19] = [
    poll!(Poll::Nothing),
    attaches!(1, 10, true),
    pushes!(1),
    polls!(1),
    attaches!(2, 11, true),
    pushes!(2),
    polls!(2),
    (
        Call::Masks,
        Answer::Masks {
            current: 7,
            previous: 3,
        },
    ),
    poll!(Poll::Same),
    set!(Command::Mix),
    pushes!(3),
    polls!(3),
    set!(Command::Write),
    pushes!(4),
    polls!(4),
    set!(Command::MixWrite),
    pushes!(5),
    set!(Command::Exit),
    push!(Push::Busy {
        seen: 4,
        expected: 1,
    }),
];

// A slot is used again once its item was taken back.
const REUSED: [(Call, Answer); 16] = [
    attaches!(1, 0, true),
    pushes!(1),
    polls!(1),
    is!(Call::Detach { slot: 1 }, true),
    pushes!(2),
    attaches!(1, 1, false),
    attaches!(2, 1, true),
    push!(Push::Busy {
        seen: 1,
        expected: 2,
    }),
    takes_back!(None),
    polls!(2),
    is!(Call::Acked, true),
    takes_back!(Some(0)),
    pushes!(3),
    attaches!(1, 2, true),
    polls!(3),
    (Call::Generation, Answer::Generation { number: 2 }),
];

// The frames of a state, a slot whose item the observer holds at the end, and the calls on the ends of the queue.
const LISTS: [(&str, u32, u32, &[(Call, Answer)]); 2] = [
    ("the fifth state lies in the first cell", 4, 1, &RECYCLED),
    ("a slot is used again after the take back", 1, 2, &REUSED),
];

#[test]
fn the_ends_answer_as_the_tables_say(rt: HostRuntime) {
    for (name, frames, slot, rows) in &LISTS {
        let blank = Blank::new(1);
        let found = first_wrong_of_new::<Brand>(rt.alloc(), blank, *frames, *slot, rows);
        assert!(rt; found == Ok((None, true)), "{name}");
    }
}
