//! The two ends on the table: each call is one word step, with the cells and the shelves that change hands by it.
ghost use Rattle.std.specs.Prelude.{◌≡◌, ◌+◌, ◌^◌, ◌<◌, true, false, if◌then◌else◌, is_some, None, Some};
ghost use Rattle.af_model.specs.StateQueue.{AreOf, FitAt};
ghost use Rattle.af_stateq.specs.Shelved.{word, nothing, IsMutator, IsObserver};
ghost use Rattle.af_stateq.specs.Ends.{Pushes, Polls, SawAcked, pushes, acknowledged, Looked};

use crate::cell::Slot;
use crate::plays::{Acknowledge, Push, SeeAck, SeeNext};
use crate::rule::{Fits, Queue};
use crate::shelves::exchange;
use crate::view::View;
use af_base::{FastState, Steps};
use atomic_table::Seat;
use std::marker::Model;
use std::sync::ledger::Ledger;

/// The end that pushes states, with the turns of the slots that it holds.
#[derive(Drop)]
pub struct MutatorEnd<P: Drop, N: Fits<P>> {
    pub(crate) seat: Seat<Slot<P>, View<P, N::Key>>,
    pub(crate) number: u64,
    pub(crate) clear: bool,
}

impl<P: Drop, N: Fits<P>> Model for MutatorEnd<P, N> {
    ghost Value = { Pushes P N.Key };

    ghost view = { λ m. record { queue = m.seat.table_id; key = m.seat.me.0.mutating.key; first = m.seat.me.0.mutating.first; number = m.number; last = m.seat.me.0.mutating.last; before = m.seat.me.0.mutating.before; clear = m.clear; events = m.seat.me.0.mutating.events } };

    ghost invariant = { λ m. IsMutator m.seat.me m.number m.clear };
}

/// The end that polls, with the turns of the slots that it holds.
#[derive(Drop)]
pub struct ObserverEnd<P: Drop, N: Fits<P>> {
    pub(crate) seat: Seat<Slot<P>, View<P, N::Key>>,
    pub(crate) number: u64,
    pub(crate) due: bool,
}

impl<P: Drop, N: Fits<P>> Model for ObserverEnd<P, N> {
    ghost Value = { Polls P N.Key };

    ghost view = { λ o. record { queue = o.seat.table_id; key = o.seat.me.0.observing.key; number = o.number; state = o.seat.me.0.observing.state; due = o.due; next = o.seat.me.0.observing.next; events = o.seat.me.0.observing.events } };

    ghost invariant = { λ o. IsObserver o.seat.me o.number o.due };
}

// The word of a state.
pub(crate) fn word_of(number: u64) -> u64
    ensures { result ≡ word number }
{
    if number == 0 { 0 } else { (number - 1) % 4 + 1 }
}

impl<P: Drop, N: Fits<P>> MutatorEnd<P, N> {
    /// One look at ack. If it first sees the last state acknowledged, it brings the items that came back.
    pub fn see_ack<L: Ledger>(
        &mut self,
        queue: &Queue<P, N>,
        items: &mut Vec<Option<P>>,
        steps: &mut Steps<L>,
    ) -> u64
        requires together { self.old.queue ≡ queue.now }
        requires empty { items.old.items ≡ nothing }
        ensures seen { SawAcked N.fits self.old items.old.items result self.new items.new.items }
        ensures steps { steps.new ≡ steps.old + 1 }
    {
        let shared = &queue.table.shared;
        steps.tick();
        let seen = shared.load::<SeeAck<N>>(&mut self.seat, 1);
        let clear = seen == word_of(self.number);
        let has_shelves = self.clear;
        self.clear = clear;
        if has_shelves || !clear {
            return seen;
        }
        exchange(queue, &mut self.seat, items);
        seen
    }

    /// Shows the next state, and sends the items with it.
    pub fn push<L: Ledger>(
        &mut self,
        queue: &Queue<P, N>,
        state: &FastState,
        items: &mut Vec<Option<P>>,
        steps: &mut Steps<L>,
    )
        requires together { self.old.queue ≡ queue.now }
        requires room { self.old.number < 2 ^ 62 }
        requires clear { self.old.clear ≡ true }
        requires items { AreOf state.now self.old.last items.old.items × FitAt N.fits self.old.key state.now items.old.items }
        ensures state { self.new ≡ pushes state.now items.old.items self.old }
        ensures items { items.new.items ≡ nothing }
        ensures steps { steps.new ≡ steps.old + 1 }
    {
        let shared = &queue.table.shared;
        self.seat.turn();
        exchange(queue, &mut self.seat, items);
        let cell = self.seat.slot_mut(shared, (self.number % 4) as usize);
        cell.state = *state;
        let number = self.number + 1;
        steps.tick();
        shared.store::<Push>(&mut self.seat, 0, word_of(number));
        self.number = number;
        self.clear = false;
    }
}

impl<P: Drop, N: Fits<P>> ObserverEnd<P, N> {
    /// One look at next, which answers whether there is a new state. If there is one that state becomes the current one, the one before it the previous one, and the items that came with it are taken.
    pub fn look<L: Ledger>(
        &mut self,
        queue: &Queue<P, N>,
        current: &mut Option<FastState>,
        previous: &mut Option<FastState>,
        items: &mut Vec<Option<P>>,
        steps: &mut Steps<L>,
    ) -> bool
        requires together { self.old.queue ≡ queue.now }
        requires room { self.old.number < 2 ^ 62 }
        requires due { self.old.due ≡ false }
        requires empty { items.old.items ≡ nothing }
        ensures seen { Looked N.fits self.old items.old.items (if result then current.new else None) self.new items.new.items }
        ensures moved { result ≡ true → (is_some current.new ≡ true) × (previous.new ≡ current.old) }
        ensures same { result ≡ false → (current.new ≡ current.old) × (previous.new ≡ previous.old) }
        ensures steps { steps.new ≡ steps.old + 1 }
    {
        let shared = &queue.table.shared;
        steps.tick();
        let seen = shared.load::<SeeNext<N>>(&mut self.seat, 0);
        if seen == word_of(self.number) {
            return false;
        }
        exchange(queue, &mut self.seat, items);
        *previous = *current;
        let cell = self.seat.slot_mut(shared, (self.number % 4) as usize);
        *current = Some(cell.state);
        self.due = true;
        true
    }

    /// Acknowledges the state that the observer took, and gives items back with it.
    pub fn acknowledge<L: Ledger>(
        &mut self,
        queue: &Queue<P, N>,
        items: &mut Vec<Option<P>>,
        steps: &mut Steps<L>,
    )
        requires together { self.old.queue ≡ queue.now }
        requires room { self.old.number < 2 ^ 62 }
        requires due { self.old.due ≡ true }
        requires items { AreOf self.old.state self.old.next items.old.items × FitAt N.fits self.old.key self.old.state items.old.items }
        ensures state { self.new ≡ acknowledged items.old.items self.old }
        ensures items { items.new.items ≡ nothing }
        ensures steps { steps.new ≡ steps.old + 1 }
    {
        let shared = &queue.table.shared;
        self.seat.turn();
        self.seat.turn();
        self.seat.turn();
        exchange(queue, &mut self.seat, items);
        self.seat.turn();
        self.seat.turn();
        let number = self.number + 1;
        steps.tick();
        shared.store::<Acknowledge>(&mut self.seat, 1, word_of(number));
        self.number = number;
        self.due = false;
    }
}
