//! The end that polls.
ghost use Rattle.std.specs.Prelude.{◌≡◌, ℕ, ◌+◌, ◌^◌, ◌<◌, ◌≤◌, length, false, Some, None, MatchOption, is_some};
ghost use Rattle.af_model.specs.StateQueue.{slots, carries, has};
ghost use Rattle.af_stateq.specs.Shelved.{nothing};
ghost use Rattle.std.specs.Borrow.{sem};
ghost use Rattle.af_stateq.specs.Mutates.{at};
ghost use Rattle.af_stateq.specs.Observes.{Observes, InOrder, IsSettled};
ghost use Rattle.af_stateq.specs.Lends.{lends_item};
ghost use Rattle.af_stateq.specs.Answers.{WasPolled};

use crate::ends::ObserverEnd;
use crate::rule::{Fits, Queue};
use af_base::{FastState, SLOTS, Steps};
use af_model::{Poll, carries_item};
use std::marker::Model;
use std::mem;
use std::sync::ledger::Ledger;

/// The end that polls states and holds their items. Contracts see the list of its events, the current and the previous state, and the items.
#[derive(Drop)]
pub struct Observer<P: Drop, N: Fits<P>> {
    pub(crate) end: ObserverEnd<P, N>,
    pub(crate) current: Option<FastState>,
    pub(crate) previous: Option<FastState>,
    pub(crate) items: Vec<Option<P>>,
    pub(crate) moving: Vec<Option<P>>,
}

impl<P: Drop, N: Fits<P>> Model for Observer<P, N> {
    ghost use Rattle.std.specs.Prelude.{◌≡◌, ◌<◌, ◌≤◌, false, true, Some, None, is_some};
    ghost use Rattle.af_stateq.specs.Shelved.{nothing};
    ghost use Rattle.af_stateq.specs.Observes.{Observes};

    ghost Value = { Observes P N.Key };

    ghost view = { λ o. record { past = o.end; current = o.current; previous = o.previous; items = o.items.items } };

    ghost invariant = { λ o. (o.end.due ≡ false) × (o.moving.items ≡ nothing) × (o.end.number ≡ 0 → o.current ≡ None) × (0 < o.end.number → o.current ≡ Some o.end.state) × (o.end.number < 2 → o.previous ≡ None) × (2 ≤ o.end.number → is_some o.previous ≡ true) };
}

/// Items that came are held, and those of slots that went off the state are given back.
fn settle<P: Drop>(state: &FastState, items: &mut Vec<Option<P>>, moving: &mut Vec<Option<P>>)
    requires lengths { (length items.old.items ≡ slots) × (length moving.old.items ≡ slots) }
    ensures lengths { (length items.new.items ≡ slots) × (length moving.new.items ≡ slots) }
    ensures each { (i : ℕ) → i < slots → IsSettled state.now items.old.items moving.old.items items.new.items moving.new.items i }
{
    for i in 0..SLOTS {
        if moving[i].is_some() || !carries_item(state, i) {
            mem::swap(&mut moving[i], &mut items[i]);
        }
    }
}

impl<P: Drop, N: Fits<P>> Observer<P, N> {
    /// Looks once for a new state. If there is one it takes that state with the items of the newly attached slots, and acknowledges it, giving back the cell before the previous one and the detached items. It takes one step, or two if there is a new state, takes no memory and waits for nobody.
    pub fn poll<L: Ledger>(&mut self, queue: &Queue<P, N>, steps: &mut Steps<L>) -> Poll
        requires together { self.old.past.queue ≡ queue.now }
        requires room { self.old.past.number < 2 ^ 62 }
        requires order { InOrder N.fits self.old }
        ensures answer { WasPolled self.old result self.new steps.old steps.new }
        ensures order { InOrder N.fits self.new }
        ensures same { (self.new.past.queue ≡ self.old.past.queue) × (self.new.past.key ≡ self.old.past.key) × (self.new.past.number ≤ self.old.past.number + 1) }
        ensures bound { steps.new ≤ steps.old + 2 }
    {
        let Observer {
            end,
            current,
            previous,
            items,
            moving,
        } = self;
        let found = end.look(queue, current, previous, moving, steps);
        if !found {
            return if end.number == 0 {
                Poll::Nothing
            } else {
                Poll::Same
            };
        }
        let Some(state) = current else { unreachable!() };
        settle(state, items, moving);
        end.acknowledge(queue, moving, steps);
        Poll::New { number: end.number }
    }

    /// The state that the last New took, and None exactly before the first. It stays until the next poll.
    pub fn current(&self) -> Option<&FastState>
        ensures { MatchOption result (self.now.past.number ≡ 0) (λ s. (0 < self.now.past.number) × (s.now ≡ self.now.past.state) × (self.now.current ≡ Some s.now)) }
    {
        self.current.as_ref()
    }

    /// The state before the current one, and None exactly before the second New. It stays until the next poll.
    pub fn previous(&self) -> Option<&FastState>
        ensures { MatchOption result (self.now.past.number < 2) (λ s. (2 ≤ self.now.past.number) × (self.now.previous ≡ Some s.now)) }
    {
        self.previous.as_ref()
    }

    /// The number of the current state, 0 before the first.
    pub fn number(&self) -> u64
        ensures { result ≡ self.now.past.number }
    {
        self.end.number
    }

    /// The item of a slot, if the observer holds one.
    pub fn item(&mut self, slot: u32) -> Option<&mut P>
        ensures* writes_back { sem 𝓛 (lends_item P.row N.row N.Key.row N.Fits self.entry slot result) }
        ensures value { MatchOption result (has self.old.items slot ≡ false) (λ p. at self.old.items slot ≡ Some p.now) }
    {
        self.items.get_mut(slot as usize)?.as_mut()
    }
}
