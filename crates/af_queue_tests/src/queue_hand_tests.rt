//! Lists of calls on the shared queue, each compared with the plain queue.
ghost use Rattle.std.specs.Prelude.{◌≡◌, ◌<◌, All, IfOk, Option};
ghost use Rattle.af_stateq.specs.Observes.{InOrder};
ghost use Rattle.af_stateq.specs.OneHand.{CallFits};

use crate::queue_tests::{ByNumber, Line, Polling, Pushing};
use af_base::{Command, Memory, SLOTS, Steps};
use af_model::PlainQueue;
use af_stateq::{Poll, Push, QueueAnswer, QueueCall, answer_each, answer_from_start, queue};
use std::alloc::Global;
use std::marker::Brand;
use std::mem::drop;
use std::sync::ledger::{Blank, Ledger};
use std::test::*;

// A call. The item of an attach is the number of its track.
#[derive(Clone, Copy)]
enum Told {
    Begin,
    Mix,
    Idle,
    Attach { slot: u32, track: u32 },
    Detach { slot: u32 },
    End { did_modify: bool },
    Push,
    Acked,
    TakeBack { slot: u32 },
    Poll,
}

fn call_of(told: Told) -> QueueCall<u32>
    ensures { (o : Option (Unit {0})) → CallFits (λ key track item. item ≡ track) o result }
{
    match told {
        Told::Begin => QueueCall::Begin,
        Told::Mix => QueueCall::SetCommand {
            command: Command::Mix,
        },
        Told::Idle => QueueCall::SetCommand {
            command: Command::ColdIdle,
        },
        Told::Attach { slot, track } => QueueCall::Attach {
            slot,
            mono: false,
            scale: 0x1000,
            track,
            item: track,
        },
        Told::Detach { slot } => QueueCall::Detach { slot },
        Told::End { did_modify } => QueueCall::End { did_modify },
        Told::Push => QueueCall::Push,
        Told::Acked => QueueCall::Acked,
        Told::TakeBack { slot } => QueueCall::TakeBack { slot },
        Told::Poll => QueueCall::Poll,
    }
}

fn calls_of(alloc: Global, list: &[Told]) -> Result<Vec<QueueCall<u32>>, Memory>
    ensures { (o : Option (Unit {0})) → IfOk result (λ v. All (CallFits (λ key track item. item ≡ track) o) v.items) }
{
    let mut calls = Vec::new(alloc);
    for told in list {
        let Ok(()) = calls.push(call_of(*told)) else {
            return Err(Memory);
        };
    }
    Ok(calls)
}

// The item that the observer holds of a slot.
fn held(observer: &mut Polling, slot: u32) -> Option<u32> {
    observer.item(slot).copied()
}

// Whether the ends have the draft, the states and the items of the plain queue.
fn ends_alike(mutator: &Pushing, observer: &mut Polling, plain: &PlainQueue<u32>) -> bool {
    let mut alike = mutator.draft() == plain.draft() && observer.number() == plain.number();
    let states = [observer.current().copied(), observer.previous().copied()];
    alike = alike && states == [plain.current(), plain.previous()];
    for slot in 0..SLOTS as u32 {
        let item = held(observer, slot);
        alike = alike && item == plain.item(slot).copied();
        alike = alike && mutator.is_free(slot) == plain.is_free(slot);
    }
    alike
}

// Whether two ends give these answers to a list, and are then the plain queue.
fn ends_answer<L: Ledger>(
    alloc: Global,
    line: &Line,
    mutator: &mut Pushing,
    observer: &mut Polling,
    list: &[Told],
    wants: &[QueueAnswer<u32>],
    plain: &PlainQueue<u32>,
    steps: &mut Steps<L>,
) -> Result<bool, Memory>
    requires together { (mutator.old.past.queue ≡ line.now) × (observer.old.past.queue ≡ line.now) }
    requires order { InOrder (λ key track item. item ≡ track) observer.old }
{
    let calls = calls_of(alloc, list)?;
    let answers = answer_each(alloc, line, mutator, observer, calls, steps)?;
    Ok(answers.as_slice() == wants && ends_alike(mutator, observer, plain))
}

// Whether the two ends of a new queue do.
fn new_ends_answer<L: Ledger>(
    alloc: Global,
    list: &[Told],
    wants: &[QueueAnswer<u32>],
    plain: &PlainQueue<u32>,
    steps: &mut Steps<L>,
) -> Result<bool, Memory> {
    let mut made = queue::<u32, ByNumber>(alloc, 4, ())?;
    let answered = ends_answer(
        alloc,
        &made.0,
        &mut made.1,
        &mut made.2,
        list,
        wants,
        plain,
        steps,
    );
    drop(made);
    answered
}

// Whether the answers from the start are these.
fn start_answers<L: Ledger>(
    alloc: Global,
    list: &[Told],
    wants: &[QueueAnswer<u32>],
    steps: &mut Steps<L>,
) -> Result<bool, Memory> {
    let calls = calls_of(alloc, list)?;
    let answers = answer_from_start::<u32, ByNumber, L>(alloc, 4, (), calls, steps)?;
    Ok(answers.as_slice() == wants)
}

// The place of an answer in those of a list, and the answer.
type Place = (usize, QueueAnswer<u32>);

// Whether these answers stand at their places.
fn stand_at(answers: &[QueueAnswer<u32>], wants: &[Place]) -> bool {
    for (place, want) in wants {
        if answers.get(*place) != Some(want) {
            return false;
        }
    }
    true
}

// Whether both functions give the answers of the plain queue to a list, and the ends are then the plain queue, if these are among its answers.
fn are_alike<L: Ledger>(
    alloc: Global,
    blank: Blank,
    list: &[Told],
    wants: &[Place],
) -> Result<bool, Memory>
    requires name { blank.name ≡ L.name }
    requires parts { (blank.parts ≡ L.parts) × (0 < blank.parts) }
{
    let mut steps = Steps::<L>::start(blank);
    let calls = calls_of(alloc, list)?;
    let Ok(mut plain) = PlainQueue::new(alloc, 4) else {
        drop(calls);
        return Err(Memory);
    };
    let Ok(answers) = plain.answer_each(alloc, calls) else {
        drop(plain);
        return Err(Memory);
    };
    let ends = new_ends_answer(alloc, list, &answers, &plain, &mut steps) == Ok(true);
    let start = start_answers(alloc, list, &answers, &mut steps) == Ok(true);
    let right = stand_at(&answers, wants);
    drop(plain);
    drop(answers);
    Ok(ends && start && right)
}

// Edits A, B and C: each state is pushed once the one before is polled, and B and C are squashed.
const SQUASHED: [Told; 15] = [
    Told::Begin,
    Told::Attach { slot: 1, track: 10 },
    Told::End { did_modify: true },
    Told::Push,
    Told::Begin,
    Told::Attach { slot: 2, track: 11 },
    Told::End { did_modify: true },
    Told::Push,
    Told::Begin,
    Told::Mix,
    Told::End { did_modify: true },
    Told::Poll,
    Told::Push,
    Told::Poll,
    Told::Push,
];

// Three tracks, of which the first goes: its slot is free only once the acknowledgement was seen and its item taken back.
const USED_AGAIN: [Told; 22] = [
    Told::Begin,
    Told::Attach { slot: 1, track: 10 },
    Told::Attach { slot: 2, track: 11 },
    Told::Attach { slot: 3, track: 12 },
    Told::End { did_modify: true },
    Told::Push,
    Told::Poll,
    Told::Begin,
    Told::Detach { slot: 1 },
    Told::End { did_modify: true },
    Told::Push,
    Told::Begin,
    Told::Attach { slot: 1, track: 13 },
    Told::End { did_modify: false },
    Told::Poll,
    Told::TakeBack { slot: 1 },
    Told::Acked,
    Told::TakeBack { slot: 1 },
    Told::Begin,
    Told::Attach { slot: 1, track: 14 },
    Told::End { did_modify: true },
    Told::Push,
];

macro_rules! pushed {
    ($place:expr, $push:expr) => {
        ($place, QueueAnswer::Pushed { push: $push })
    };
}

macro_rules! polled {
    ($place:expr, $number:expr) => {
        (
            $place,
            QueueAnswer::Polled {
                poll: Poll::New { number: $number },
            },
        )
    };
}

const SQUASHED_ANSWERS: [Place; 6] = [
    pushed!(3, Push::Pushed { number: 1 }),
    pushed!(
        7,
        Push::Busy {
            seen: 0,
            expected: 1,
        }
    ),
    polled!(11, 1),
    pushed!(12, Push::Pushed { number: 2 }),
    polled!(13, 2),
    pushed!(14, Push::Clean),
];

const AGAIN_ANSWERS: [Place; 6] = [
    (
        12,
        QueueAnswer::NotAllowed {
            call: QueueCall::Attach {
                slot: 1,
                mono: false,
                scale: 0x1000,
                track: 13,
                item: 13,
            },
        },
    ),
    (15, QueueAnswer::TakenBack { item: None }),
    (16, QueueAnswer::Acked { acked: true }),
    (17, QueueAnswer::TakenBack { item: Some(10) }),
    (19, QueueAnswer::Done),
    pushed!(21, Push::Pushed { number: 3 }),
];

// Few slots of all sizes, so that calls come to the same one often.
const PLACES: [u32; 8] = [0, 1, 2, 7, 8, 16, 30, SLOTS as u32 - 1];

fn told_of(number: u32) -> Told {
    let slot = PLACES[(number / 16 % 8) as usize];
    let track = number / 128 % 100;
    match number % 16 {
        0 | 1 => Told::Begin,
        2..5 => Told::Attach { slot, track },
        5 | 6 => Told::Detach { slot },
        7 => Told::Mix,
        8 => Told::Idle,
        9 | 10 => Told::End { did_modify: true },
        11 => Told::End { did_modify: false },
        12 => Told::Push,
        13 => Told::Acked,
        14 => Told::TakeBack { slot },
        _ => Told::Poll,
    }
}

// Calls in no order, from a linear congruential generator.
fn mixed(seed: u64) -> [Told; 400] {
    let mut list = [Told::Begin; 400];
    let mut state = seed;
    for told in list.iter_mut() {
        state = state
            .wrapping_mul(6_364_136_223_846_793_005)
            .wrapping_add(1_442_695_040_888_963_407);
        *told = told_of((state >> 33) as u32);
    }
    list
}

// The list of a number, and what is known of its answers.
fn list_is_alike(alloc: Global, number: u64) -> Result<bool, Memory> {
    let random = mixed(number);
    let (list, wants): (&[Told], &[Place]) = match number {
        6 => (&SQUASHED, &SQUASHED_ANSWERS),
        7 => (&USED_AGAIN, &AGAIN_ANSWERS),
        _ => (&random, &[]),
    };
    are_alike::<Brand>(alloc, Blank::new(1), list, wants)
}

#[test]
fn lists_of_calls_answer_as_the_plain_queue(rt: HostRuntime) {
    for number in 1..8 {
        let found = list_is_alike(rt.alloc(), number);
        assert!(rt; found == Ok(true), "list {number}");
    }
}
