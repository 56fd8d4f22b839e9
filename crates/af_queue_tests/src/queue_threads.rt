//! The state queue with its two ends on two threads.
ghost use Rattle.std.specs.Prelude.{◌≡◌, ◌<◌, ◌≤◌, ◌+◌, ◌^◌, false, true, Some};
ghost use Rattle.af_stateq.specs.Observes.{InOrder};

use crate::queue_tests::{ByNumber, Line, Polling, Pushing, attach, command, detach};
use af_base::{Command, FastState, Memory, Push, SLOTS, Steps};
use af_stateq::{Poll, queue};
use std::alloc::Global;
use std::marker::Brand;
use std::mem::drop;
use std::sync::Wait;
use std::sync::ledger::{Blank, Ledger};
use std::test::*;
use std::thread::{Threads, join, yield_now};

// The last slot.
const LAST: u32 = SLOTS as u32 - 1;

// Pushes up to 1,000 states.
fn push_by<L: Ledger>(line: &Line, mutator: &mut Pushing, blank: Blank)
    requires name { blank.name ≡ L.name }
    requires parts { (blank.parts ≡ L.parts) × (0 < blank.parts) }
    requires ready { (mutator.old.past.queue ≡ line.now) × (mutator.old.editing ≡ false) × (mutator.old.past.number ≡ 0) }
{
    let mut steps = Steps::<L>::start(blank);
    let mut pushed = 0u64;
    for _i in 0..1_000_000u32 {
        command(mutator, Command::Mix);
        match mutator.push(line, &mut steps) {
            Push::Pushed { number } => pushed = number,
            _ => yield_now(),
        }
        if pushed >= 1000 {
            break;
        }
    }
}

// Whether each New had the next number, over at most a million polls.
fn poll_by<L: Ledger>(line: &Line, observer: &mut Polling, blank: Blank) -> bool
    requires name { blank.name ≡ L.name }
    requires parts { (blank.parts ≡ L.parts) × (0 < blank.parts) }
    requires ready { (observer.old.past.queue ≡ line.now) × InOrder (λ _ track item. item ≡ track) observer.old × (observer.old.past.number ≡ 0) }
{
    let mut steps = Steps::<L>::start(blank);
    let mut last = 0u64;
    let mut right = true;
    for _i in 0..1_000_000u32 {
        match observer.poll(line, &mut steps) {
            Poll::New { number } => {
                right = right && last < number && number - last == 1;
                last = number;
            }
            _ => yield_now(),
        }
        if last >= 1000 {
            break;
        }
    }
    right
}

// Attaches and detaches all slots in turn, and takes items back. Whether each item taken back was that of its track, at most 7,000 of them.
fn attach_by<L: Ledger>(line: &Line, mutator: &mut Pushing, blank: Blank) -> bool
    requires name { blank.name ≡ L.name }
    requires parts { (blank.parts ≡ L.parts) × (0 < blank.parts) }
    requires ready { (mutator.old.past.queue ≡ line.now) × (mutator.old.editing ≡ false) × (mutator.old.past.number ≡ 0) }
{
    let mut steps = Steps::<L>::start(blank);
    let (mut right, mut taken) = (true, 0u32);
    for i in 0..10_000_000u32 {
        let slot = i % LAST + 1;
        let track = mutator.draft().slots[slot as usize].track;
        if let Some(item) = mutator.take_back(slot) {
            right = right && item == track;
            taken = taken.saturating_add(1);
        }
        if !attach(mutator, slot, i) {
            detach(mutator, slot);
        }
        if let Push::Busy { .. } = mutator.push(line, &mut steps) {
            yield_now();
        }
        if taken >= 7000 {
            break;
        }
    }
    for _i in 0..1_000_000u32 {
        command(mutator, Command::Exit);
        match mutator.push(line, &mut steps) {
            Push::Pushed { .. } => break,
            _ => yield_now(),
        }
    }
    right
}

// Polls until the command is Exit, at most so many times, and says whether the item then held in the last slot is that of its track.
fn hold_by<L: Ledger>(line: &Line, observer: &mut Polling, most: u32, blank: Blank) -> bool
    requires name { blank.name ≡ L.name }
    requires parts { (blank.parts ≡ L.parts) × (0 < blank.parts) }
    requires ready { (observer.old.past.queue ≡ line.now) × InOrder (λ _ track item. item ≡ track) observer.old × (observer.old.past.number ≡ 0) }
{
    let mut steps = Steps::<L>::start(blank);
    for _i in 0..most {
        match observer.poll(line, &mut steps) {
            Poll::New { .. } => {}
            _ => yield_now(),
        }
        if command_of(observer.current()) == Command::Exit.code() {
            break;
        }
    }
    let Some(state) = observer.current() else {
        return false;
    };
    let track = state.slots[LAST as usize].track;
    match observer.item(LAST) {
        Some(item) => *item == track,
        None => true,
    }
}

fn command_of(state: Option<&FastState>) -> u32 {
    match state {
        Some(state) => state.command.code(),
        None => 0,
    }
}

// Pushes two states, the second until it is acknowledged.
fn wait_by<R: Wait, L: Ledger>(rt: &R, line: &Line, mutator: &mut Pushing, blank: Blank) -> bool
    requires name { blank.name ≡ L.name }
    requires parts { (blank.parts ≡ L.parts) × (0 < blank.parts) }
    requires ready { (mutator.old.past.queue ≡ line.now) × (mutator.old.editing ≡ false) × (mutator.old.past.number ≡ 0) }
{
    let mut steps = Steps::<L>::start(blank);
    command(mutator, Command::Mix);
    mutator.push(line, &mut steps);
    command(mutator, Command::Exit);
    let answer = mutator.push_until_acked(rt, line, &mut steps);
    answer == Push::Pushed { number: 2 }
}

// What the mutator does on its thread.
#[derive(Clone, Copy)]
enum Work {
    Push,
    Attach,
    Wait,
}

fn make_work<R: Wait>(rt: &R, line: &Line, mut mutator: Pushing, work: Work) -> bool
    requires ready { (mutator.past.queue ≡ line.now) × (mutator.editing ≡ false) × (mutator.past.number ≡ 0) }
{
    let right = match work {
        Work::Push => {
            push_by::<Brand>(line, &mut mutator, Blank::new(1));
            true
        }
        Work::Attach => attach_by::<Brand>(line, &mut mutator, Blank::new(1)),
        Work::Wait => wait_by::<R, Brand>(rt, line, &mut mutator, Blank::new(1)),
    };
    drop(mutator);
    right
}

// What the observer does on its thread.
#[derive(Clone, Copy)]
enum Watch {
    Poll,
    // Polls at most so many times.
    Hold { most: u32 },
}

fn keep_watch(line: &Line, mut observer: Polling, watch: Watch) -> bool
    requires ready { (observer.past.queue ≡ line.now) × InOrder (λ _ track item. item ≡ track) observer × (observer.past.number ≡ 0) }
{
    let right = match watch {
        Watch::Poll => poll_by::<Brand>(line, &mut observer, Blank::new(1)),
        Watch::Hold { most } => hold_by::<Brand>(line, &mut observer, most, Blank::new(1)),
    };
    drop(observer);
    right
}

// What the two ends of a new queue answer on two threads.
fn on_two<R: Threads + Wait + Sync>(
    rt: &R,
    alloc: Global,
    works: Work,
    watches: Watch,
) -> Result<(bool, bool), Memory> {
    let (line, mutator, observer) = queue::<u32, ByNumber>(alloc, 4, ())?;
    let line = &line;
    Ok(join(
        rt,
        move || -> bool
            requires { (mutator.past.queue ≡ line.now) × (mutator.editing ≡ false) × (mutator.past.number ≡ 0) }
        { make_work(rt, line, mutator, works) },
        move || -> bool
            requires { (observer.past.queue ≡ line.now) × InOrder (λ _ track item. item ≡ track) observer × (observer.past.number ≡ 0) }
        { keep_watch(line, observer, watches) },
    ))
}

// Numbers never fall and skip none; each item comes back as it was given; a push waits for its acknowledgement.
const PAIRS: [(&str, Work, Watch); 3] = [
    ("numbers", Work::Push, Watch::Poll),
    ("items", Work::Attach, Watch::Hold { most: 50_000_000 }),
    ("a wait", Work::Wait, Watch::Hold { most: 10_000_000 }),
];

#[test]
fn both_ends_answer_on_two_threads(rt: HostRuntime) {
    for (name, works, watches) in &PAIRS {
        let found = on_two(&rt, rt.alloc(), *works, *watches);
        assert!(rt; found == Ok((true, true)), "{name}");
    }
}
