//! Both ends of a queue in one hand: calls with a meeting after each answer as the plain queue does.
ghost use Rattle.std.specs.Prelude.{◌≡◌, ℕ, ◌+◌, ◌^◌, ◌<◌, true, false, All, IfOk, OnOk, OnErr, Some};
ghost use Rattle.af_model.specs.PlainQueue.{QueueState, is_allowed, step, answers_of, state_after, new_queue};
ghost use Rattle.af_stateq.specs.Mutates.{InDraft};
ghost use Rattle.af_stateq.specs.Observes.{InOrder};
ghost use Rattle.af_stateq.specs.OneHand.{ready_of, CallFits, Made, Tried, HaveMet, SameEnds, Agrees};

use crate::make::{meet, queue};
use crate::mutator::Mutator;
use crate::observer::Observer;
use crate::rule::{Fits, Queue};
use af_base::{Memory, Steps};
use af_model::{QueueAnswer, QueueCall, Readiness};
use std::alloc::Global;
use std::sync::ledger::Ledger;

/// What decides whether a call may be made.
fn ready<P: Drop, N: Fits<P>>(mutator: &Mutator<P, N>, observer: &Observer<P, N>) -> Readiness
    ensures ready { result ≡ ready_of mutator.now observer.now }
    ensures draft { InDraft N.fits mutator.now }
{
    Readiness {
        draft: mutator.draft,
        editing: mutator.editing,
        edited: mutator.edited,
        out: mutator.out,
        pushed: mutator.end.number,
        number: observer.end.number,
    }
}

/// Makes a call that is allowed.
fn make_call<P: Drop, N: Fits<P>, L: Ledger>(
    queue: &Queue<P, N>,
    mutator: &mut Mutator<P, N>,
    observer: &mut Observer<P, N>,
    call: QueueCall<P>,
    steps: &mut Steps<L>,
) -> QueueAnswer<P>
    requires together { (mutator.old.past.queue ≡ queue.now) × (observer.old.past.queue ≡ queue.now) }
    requires allowed { is_allowed (ready_of mutator.old observer.old) call ≡ true }
    requires order { InOrder N.fits observer.old }
    requires fits { CallFits N.fits mutator.old.past.key call }
    ensures made { Made call mutator.old observer.old result mutator.new observer.new }
    ensures order { InOrder N.fits observer.new }
    ensures same { SameEnds mutator.old observer.old mutator.new observer.new }
{
    match call {
        QueueCall::Begin => mutator.begin(),
        QueueCall::SetCommand { command } => mutator.set_command(command),
        QueueCall::Attach {
            slot,
            mono,
            scale,
            track,
            item,
        } => mutator.attach(slot, mono, scale, track, item),
        QueueCall::Detach { slot } => mutator.detach(slot),
        QueueCall::End { did_modify } => mutator.end(did_modify),
        QueueCall::Push => {
            return QueueAnswer::Pushed {
                push: mutator.push(queue, steps),
            };
        }
        QueueCall::Acked => {
            return QueueAnswer::Acked {
                acked: mutator.acked(queue, steps),
            };
        }
        QueueCall::TakeBack { slot } => {
            return QueueAnswer::TakenBack {
                item: mutator.take_back(slot),
            };
        }
        QueueCall::Poll => {
            return QueueAnswer::Polled {
                poll: observer.poll(queue, steps),
            };
        }
    }
    QueueAnswer::Done
}

/// Makes a call if it is allowed, and else gives it back.
fn try_call<P: Drop, N: Fits<P>, L: Ledger>(
    queue: &Queue<P, N>,
    mutator: &mut Mutator<P, N>,
    observer: &mut Observer<P, N>,
    call: QueueCall<P>,
    steps: &mut Steps<L>,
) -> QueueAnswer<P>
    requires together { (mutator.old.past.queue ≡ queue.now) × (observer.old.past.queue ≡ queue.now) }
    requires order { InOrder N.fits observer.old }
    requires fits { CallFits N.fits mutator.old.past.key call }
    ensures tried { Tried call mutator.old observer.old result mutator.new observer.new }
    ensures draft { InDraft N.fits mutator.old }
    ensures order { InOrder N.fits observer.new }
    ensures same { SameEnds mutator.old observer.old mutator.new observer.new }
{
    if call.is_allowed(&ready(mutator, observer)) {
        make_call(queue, mutator, observer, call, steps)
    } else {
        QueueAnswer::NotAllowed { call }
    }
}

/// Makes a call if it is allowed, and meets.
fn answer_one<P: Drop, N: Fits<P>, L: Ledger>(
    queue: &Queue<P, N>,
    mutator: &mut Mutator<P, N>,
    observer: &mut Observer<P, N>,
    call: QueueCall<P>,
    steps: &mut Steps<L>,
) -> QueueAnswer<P>
    requires together { (mutator.old.past.queue ≡ queue.now) × (observer.old.past.queue ≡ queue.now) }
    requires order { InOrder N.fits observer.old }
    requires fits { CallFits N.fits mutator.old.past.key call }
    requires met { HaveMet mutator.old.past observer.old.past }
    ensures answer { (q : QueueState P) → Agrees q mutator.old observer.old → (result ≡ (step q call).0) × Agrees (step q call).1 mutator.new observer.new }
    ensures met { HaveMet mutator.new.past observer.new.past }
    ensures order { InOrder N.fits observer.new }
    ensures same { SameEnds mutator.old observer.old mutator.new observer.new }
{
    let answer = try_call(queue, mutator, observer, call, steps);
    meet(queue, mutator, observer, steps);
    answer
}

/// Makes a list of calls with both ends, each if it is allowed, and meets before the first and after each. So each look sees the last push, and each look at the acknowledgement the last one: the answers are those of the plain queue that the ends are, and after the calls they are the plain queue that these leave. Memory for the answers is its only refusal: then no call is made.
pub fn answer_each<P: Drop, N: Fits<P>, L: Ledger>(
    alloc: Global,
    queue: &Queue<P, N>,
    mutator: &mut Mutator<P, N>,
    observer: &mut Observer<P, N>,
    calls: Vec<QueueCall<P>>,
    steps: &mut Steps<L>,
) -> Result<Vec<QueueAnswer<P>>, Memory>
    requires together { (mutator.old.past.queue ≡ queue.now) × (observer.old.past.queue ≡ queue.now) }
    requires order { InOrder N.fits observer.old }
    requires fits { All (CallFits N.fits mutator.old.past.key) calls.items }
    ensures answers { (q : QueueState P) → Agrees q mutator.old observer.old → IfOk result (λ v. v.items ≡ answers_of q calls.items) }
    ensures state { (q : QueueState P) → Agrees q mutator.old observer.old → OnOk result (Agrees (state_after q calls.items) mutator.new observer.new) }
    ensures err { OnErr result ((mutator.new ≡ mutator.old) × (observer.new ≡ observer.old)) }
    ensures order { InOrder N.fits observer.new }
    ensures same { SameEnds mutator.old observer.old mutator.new observer.new }
{
    let Ok(mut answers) = Vec::with_capacity(alloc, calls.len()) else {
        return Err(Memory);
    };
    meet(queue, mutator, observer, steps);
    for call in calls {
        answers.push_reserved(answer_one(queue, mutator, observer, call, steps));
    }
    Ok(answers)
}

/// What a list of calls on a new queue answers, with both ends in one hand and a meeting after each call: what the plain queue answers.
pub fn answer_from_start<P: Drop, N: Fits<P>, L: Ledger>(
    alloc: Global,
    frames: u32,
    key: N::Key,
    calls: Vec<QueueCall<P>>,
    steps: &mut Steps<L>,
) -> Result<Vec<QueueAnswer<P>>, Memory>
    requires fits { All (CallFits N.fits (Some key)) calls.items }
    ensures { IfOk result (λ v. v.items ≡ answers_of (new_queue frames) calls.items) }
{
    let (line, mut mutator, mut observer) = queue::<P, N>(alloc, frames, key)?;
    answer_each(alloc, &line, &mut mutator, &mut observer, calls, steps)
}
