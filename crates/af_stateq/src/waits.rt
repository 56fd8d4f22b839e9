//! Pushes that wait for the observer. They are promised only if they return.
ghost use Rattle.std.specs.Prelude.{◌≡◌, ◌^◌, ◌<◌, false, true};
ghost use Rattle.af_stateq.specs.Mutates.{InDraft};
ghost use Rattle.af_stateq.specs.Answers.{SameDraft, UntilPushed, UntilAcked};

use crate::mutator::Mutator;
use crate::rule::{Fits, Queue};
use af_base::{Push, Steps};
use std::sync::Wait;
use std::sync::ledger::Ledger;
use std::thread;

impl<P: Drop, N: Fits<P>> Mutator<P, N> {
    /// Pushes again and again until the answer isn't Busy, and answers that.
    pub fn push_until_pushed<R: Wait, L: Ledger>(
        &mut self,
        rt: &R,
        queue: &Queue<P, N>,
        steps: &mut Steps<L>,
    ) -> Push
        requires idle { self.old.editing ≡ false }
        requires together { self.old.past.queue ≡ queue.now }
        requires room { self.old.past.number < 2 ^ 62 }
        ensures answer { UntilPushed self.old result self.new steps.old steps.new }
        ensures same { SameDraft self.old self.new }
        ensures holds { InDraft N.fits self.new }
    {
        for _ in rt.forever() {
            match self.push(queue, steps) {
                Push::Busy { .. } => thread::yield_now(),
                answer => return answer,
            }
        }
        unreachable!()
    }

    /// Pushes until the push isn't Busy, and then looks again and again until the last push is acknowledged, also after Clean.
    pub fn push_until_acked<R: Wait, L: Ledger>(
        &mut self,
        rt: &R,
        queue: &Queue<P, N>,
        steps: &mut Steps<L>,
    ) -> Push
        requires idle { self.old.editing ≡ false }
        requires together { self.old.past.queue ≡ queue.now }
        requires room { self.old.past.number < 2 ^ 62 }
        ensures answer { UntilAcked self.old result self.new steps.old steps.new }
        ensures acked { self.new.past.clear ≡ true }
        ensures same { SameDraft self.old self.new }
        ensures holds { InDraft N.fits self.new }
    {
        let answer = self.push_until_pushed(rt, queue, steps);
        for _ in rt.forever() {
            if self.acked(queue, steps) {
                return answer;
            }
            thread::yield_now();
        }
        unreachable!()
    }
}
