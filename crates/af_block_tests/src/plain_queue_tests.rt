//! Cases of calls whose answers were worked out by hand.
use af_base::{Command, FastState, Memory, Push};
use af_model::{PlainQueue, Poll, QueueAnswer, QueueCall};
use std::alloc::Global;
use std::mem::drop;
use std::test::*;

// A mutation that attaches the track to the slot is these three calls. The item is the track's number.
macro_rules! attach {
    ($slot:expr, $track:expr) => {
        QueueCall::Attach {
            slot: $slot,
            mono: false,
            scale: 0x1000,
            track: $track,
            item: $track,
        }
    };
}

const END: QueueCall<u32> = QueueCall::End { did_modify: true };

// Edits between two pushes are squashed into one state, and a push is Busy until its last one is polled.
const CALLS: [QueueCall<u32>; 15] = [
    QueueCall::Begin,
    attach!(1, 10),
    END,
    QueueCall::Push,
    QueueCall::Begin,
    attach!(2, 11),
    END,
    QueueCall::Push,
    QueueCall::Begin,
    attach!(3, 12),
    END,
    QueueCall::Poll,
    QueueCall::Push,
    QueueCall::Poll,
    QueueCall::Push,
];

macro_rules! pushed {
    ($push:expr) => {
        QueueAnswer::Pushed { push: $push }
    };
}

macro_rules! polled {
    ($number:expr) => {
        QueueAnswer::Polled {
            poll: Poll::New { number: $number },
        }
    };
}

const ANSWERS: [QueueAnswer<u32>; 15] = [
    QueueAnswer::Done,
    QueueAnswer::Done,
    QueueAnswer::Done,
    pushed!(Push::Pushed { number: 1 }),
    QueueAnswer::Done,
    QueueAnswer::Done,
    QueueAnswer::Done,
    pushed!(Push::Busy {
        seen: 0,
        expected: 1
    }),
    QueueAnswer::Done,
    QueueAnswer::Done,
    QueueAnswer::Done,
    polled!(1),
    pushed!(Push::Pushed { number: 2 }),
    polled!(2),
    pushed!(Push::Clean),
];

// The mask of a state, if there is one.
fn mask_of(state: Option<FastState>) -> u32 {
    match state {
        Some(state) => state.mask,
        None => 0,
    }
}

// Whether a queue is as those calls leave it.
fn is_squashed(queue: &PlainQueue<u32>) -> bool {
    let masks = (mask_of(queue.current()), mask_of(queue.previous()));
    let ready = !queue.is_free(3) && queue.number() == 2 && queue.item(3) == Some(&12);
    masks == (15, 3) && ready && queue.draft().mask == 15
}

// Whether the calls are answered so from the start, and leave the queue so.
fn squashes(alloc: Global) -> Result<bool, Memory> {
    let calls = Vec::from_array(alloc, CALLS)?;
    let mut queue = PlainQueue::new(alloc, 4)?;
    let answers = queue.answer_each(alloc, calls);
    let squashed = is_squashed(&queue);
    drop(queue);
    Ok(squashed && answers?.as_slice() == ANSWERS.as_slice())
}

#[test]
fn edits_before_a_push_are_squashed(rt: HostRuntime) {
    assert!(rt; squashes(rt.alloc()) == Ok(true));
}

// A call out of turn, and what it answers.
fn call_out_of_turn(alloc: Global) -> Result<bool, Memory> {
    let mut queue = PlainQueue::new(alloc, 1)?;
    let call = QueueCall::<u32>::SetCommand {
        command: Command::Mix,
    };
    let allowed = call.is_allowed(&queue.readiness());
    let back = QueueAnswer::NotAllowed {
        call: QueueCall::SetCommand {
            command: Command::Mix,
        },
    };
    Ok(!allowed && queue.answer(call) == back)
}

#[test]
fn a_call_out_of_turn_comes_back(rt: HostRuntime) {
    assert!(rt; call_out_of_turn(rt.alloc()) == Ok(true));
}
