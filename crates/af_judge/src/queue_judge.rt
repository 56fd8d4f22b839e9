//! Whether what the two ends of the state queue did stands in some legal order, round by round. Items follow the states, so that only the numbers of states count.
ghost use Rattle.std.specs.Prelude.{◌≡◌, ◌↔◌, ◌⊎◌, ℕ, [], ◌+◌, ◌<◌, ◌≤◌, ◌^◌, IsTrue, IfOk, OnOk, length, take, slice_index_or, true, false, replicate, ◌∷◌};
ghost use Rattle.af_model.specs.Order.{one, two};
ghost use Rattle.af_base.specs.declared.state.Push.TheVariants as pushing;
ghost use Rattle.af_judge.specs.declared.queue_judge.MutatorStep.TheVariants as mutator_step;
ghost use Rattle.af_judge.specs.QueueNumbers.{AreOpenCounts, HasRoundOrder, HasStepOrder, Leads, Passes, may_step, met, mutated, mutator_after, numbers, observed, observer_after, poll_steps, push_steps, queue_begins, turn_steps, with_looks, with_steps};

use af_base::{Memory, Push, TurnEntry};
use std::alloc::Global;
use std::marker::Model;

/// What the mutator did: it saw the state of a number acknowledged last, or pushed one.
#[derive(Clone, Copy, Debug, PartialEq, Eq)]
pub enum MutatorStep {
    Saw { number: u64 },
    Pushed { number: u64 },
}

/// What the observer did: it found that the state of a number was pushed last, or acknowledged one.
#[derive(Clone, Copy, Debug, PartialEq, Eq)]
pub enum ObserverStep {
    Found { number: u64 },
    Acknowledged { number: u64 },
}

/// What the mutator's steps leave: the number pushed last, and whether that was seen acknowledged.
#[derive(Clone, Copy, Debug, PartialEq, Eq)]
pub struct MutatorNumbers {
    pushed: u64,
    clear: bool,
}

/// What the observer's steps leave: the number acknowledged last, and the one that is to be acknowledged next, or 0.
#[derive(Clone, Copy, Debug, PartialEq, Eq)]
pub struct ObserverNumbers {
    acked: u64,
    due: u64,
}

impl MutatorNumbers {
    // After one step more.
    fn after(self, step: MutatorStep) -> MutatorNumbers
        ensures { result ≡ mutator_after self step }
    {
        match step {
            MutatorStep::Saw { number } => MutatorNumbers {
                pushed: self.pushed,
                clear: number == self.pushed,
            },
            MutatorStep::Pushed { number } => MutatorNumbers {
                pushed: number,
                clear: false,
            },
        }
    }

    // Whether the mutator's step is legal, with the observer where it is so far.
    fn may(self, observer: ObserverNumbers, step: MutatorStep) -> bool
        ensures { IsTrue result ↔ may_step (numbers self observer) (one step) }
    {
        match step {
            MutatorStep::Saw { number } => number == observer.acked,
            MutatorStep::Pushed { number } => {
                number > 0
                    && number - 1 == self.pushed
                    && observer.acked == self.pushed
                    && self.clear
            }
        }
    }
}

impl ObserverNumbers {
    // After one step more.
    fn after(self, step: ObserverStep) -> ObserverNumbers
        ensures { result ≡ observer_after self step }
    {
        match step {
            ObserverStep::Found { number } => ObserverNumbers {
                acked: self.acked,
                due: if number == self.acked { 0 } else { number },
            },
            ObserverStep::Acknowledged { number } => ObserverNumbers {
                acked: number,
                due: 0,
            },
        }
    }

    // Whether the observer's step is legal, with the mutator where it is so far.
    fn may(self, mutator: MutatorNumbers, step: ObserverStep) -> bool
        ensures { IsTrue result ↔ may_step (numbers mutator self) (two step) }
    {
        match step {
            ObserverStep::Found { number } => number == mutator.pushed && self.due == 0,
            ObserverStep::Acknowledged { number } => number == self.due && number != 0,
        }
    }
}

// What the mutator's numbers are after all these steps.
fn mutated(from: MutatorNumbers, steps: &[MutatorStep]) -> MutatorNumbers
    ensures { result ≡ mutated from steps.now }
{
    let mut point = from;
    for step in steps {
        point = point.after(*step);
    }
    point
}

// What the observer's numbers are after all these steps.
fn observed(from: ObserverNumbers, steps: &[ObserverStep]) -> ObserverNumbers
    ensures { result ≡ observed from steps.now }
{
    let mut point = from;
    for step in steps {
        point = point.after(*step);
    }
    point
}

// The first counts of the mutator's steps: only none of them has stood.
fn begin(alloc: Global, count: usize) -> Result<Vec<bool>, Memory>
    ensures { IfOk result (λ v. v.items ≡ true ∷ replicate count false) }
{
    let mut counts = Vec::new(alloc);
    counts.push(true)?;
    for _ in 0..count {
        counts.push(false)?;
    }
    Ok(counts)
}

// Closes each count of the mutator's steps after which the observer's step isn't legal.
fn observe(
    mutator: MutatorNumbers,
    steps: &[MutatorStep],
    observer: ObserverNumbers,
    step: ObserverStep,
    counts: &mut [bool],
)
    ensures { Passes mutator steps.now observer step counts.old counts.new }
{
    let mut point = mutator;
    for at in 0..counts.len() {
        counts[at] = counts[at] && observer.may(point, step);
        if at < steps.len() {
            point = point.after(steps[at]);
        }
    }
}

// Whether a count is open, or the one before it that leads to it by the mutator's step.
fn leads(
    is_open: bool,
    before: bool,
    mutator: MutatorNumbers,
    observer: ObserverNumbers,
    step: MutatorStep,
) -> bool
    ensures { IsTrue result ↔ (IsTrue is_open ⊎ (IsTrue before × may_step (numbers mutator observer) (one step))) }
{
    is_open || before && mutator.may(observer, step)
}

// Opens each count of the mutator's steps to which an open one leads by its next step.
fn mutate(
    mutator: MutatorNumbers,
    steps: &[MutatorStep],
    observer: ObserverNumbers,
    counts: &mut [bool],
)
    requires { length counts.old ≡ length steps.now + 1 }
    ensures { Leads mutator steps.now observer counts.old counts.new }
{
    let mut point = mutator;
    for at in 0..steps.len() {
        let step = steps[at];
        counts[at + 1] = leads(counts[at + 1], counts[at], point, observer, step);
        point = point.after(step);
    }
}

// From the first counts on: those that are open with all steps of the observer.
fn walk(
    mutator: MutatorNumbers,
    steps: &[MutatorStep],
    observer: ObserverNumbers,
    looks: &[ObserverStep],
    counts: &mut [bool],
)
    requires { counts.old ≡ true ∷ replicate (length steps.now) false }
    ensures { AreOpenCounts mutator steps.now observer looks.now counts.new }
{
    let mut point = observer;
    mutate(mutator, steps, point, counts);
    for step in looks {
        observe(mutator, steps, point, *step, counts);
        point = point.after(*step);
        mutate(mutator, steps, point, counts);
    }
}

// Whether some order of the steps of both ends is legal from these points on.
fn has_order(
    alloc: Global,
    mutator: MutatorNumbers,
    steps: &[MutatorStep],
    observer: ObserverNumbers,
    looks: &[ObserverStep],
) -> Result<bool, Memory>
    ensures { IfOk result (λ yes. IsTrue yes ↔ HasStepOrder mutator steps.now observer looks.now) }
{
    let mut counts = begin(alloc, steps.len())?;
    walk(mutator, steps, observer, looks, &mut counts);
    Ok(counts[steps.len()])
}

/// The queue: what its two ends left at their last meeting, and what they did since then.
#[derive(Drop)]
pub struct QueueJudge {
    alloc: Global,
    mutator: MutatorNumbers,
    observer: ObserverNumbers,
    steps: Vec<MutatorStep>,
    looks: Vec<ObserverStep>,
}

impl Model for QueueJudge {
    ghost use Rattle.af_judge.specs.QueueNumbers.{QueueKept};

    ghost Value = { QueueKept };

    ghost view = { λ q. record { mutator = q.mutator; observer = q.observer; steps = q.steps.items; looks = q.looks.items } };
}

impl QueueJudge {
    /// A queue into which nothing was pushed.
    pub fn new(alloc: Global) -> QueueJudge
        ensures { result ≡ queue_begins }
    {
        QueueJudge {
            alloc,
            mutator: MutatorNumbers {
                pushed: 0,
                clear: true,
            },
            observer: ObserverNumbers { acked: 0, due: 0 },
            steps: Vec::new(alloc),
            looks: Vec::new(alloc),
        }
    }

    // The mutator saw the state of this number acknowledged last.
    fn saw(&mut self, number: u64) -> Result<(), Memory>
        ensures { OnOk result (self.new ≡ with_steps (mutator_step.Saw number ∷ []) self.old) }
    {
        self.steps.push(MutatorStep::Saw { number })?;
        Ok(())
    }

    // The mutator pushed the state of this number, after so many. Before it, it saw the last one acknowledged, if there was one.
    fn pushed(&mut self, last: u64, number: u64) -> Result<(), Memory>
        ensures { OnOk result (self.new ≡ with_steps (push_steps last (pushing.Pushed number)) self.old) }
    {
        if last > 0 {
            self.saw(last)?;
        }
        self.steps.push(MutatorStep::Pushed { number })?;
        Ok(())
    }

    /// The mutator's looks and push in a turn, by a mixer that hadn't ended and had pushed so many states.
    pub fn turned(&mut self, last: u64, turn: &TurnEntry) -> Result<(), Memory>
        ensures { OnOk result (self.new ≡ with_steps (turn_steps last turn.now.ended turn.now.ack turn.now.push) self.old) }
    {
        let before = last.saturating_sub(1);
        self.saw(if turn.ack { last } else { before })?;
        if turn.ended {
            return Ok(());
        }
        match turn.push {
            Push::Clean => Ok(()),
            Push::Busy { .. } => self.saw(before),
            Push::Pushed { number } => self.pushed(last, number),
        }
    }

    /// The observer found the state of this number, when it had adopted that of another one: a new state is acknowledged.
    pub fn polled(&mut self, current: u64, number: u64) -> Result<(), Memory>
        ensures { OnOk result (self.new ≡ with_looks (poll_steps current number) self.old) }
    {
        self.looks.push(ObserverStep::Found { number })?;
        if number != current {
            self.looks.push(ObserverStep::Acknowledged { number })?;
        }
        Ok(())
    }

    /// The ends meet. Answers whether some order of what they did since their last meeting is legal after it, and goes on from there.
    pub fn meet(&mut self) -> Result<bool, Memory>
        ensures right { IfOk result (λ yes. IsTrue yes ↔ HasRoundOrder self.old) }
        ensures met { OnOk result (self.new ≡ met self.old) }
    {
        let right = has_order(
            self.alloc,
            self.mutator,
            &self.steps,
            self.observer,
            &self.looks,
        )?;
        self.mutator = mutated(self.mutator, &self.steps);
        self.observer = observed(self.observer, &self.looks);
        self.steps.clear();
        self.looks.clear();
        Ok(right)
    }
}
