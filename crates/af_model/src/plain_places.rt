//! Where the items of a plain queue are, and how they move.
ghost use Rattle.std.specs.Prelude.{◌≡◌, ◌+◌, ◌^◌, ◌<◌, ◌≤◌, ◌==◌, ◌||◌, not, true, false, IfOk, OnOk, OnErr, MatchOption, map, Some, None, slice_set, length};
ghost use Rattle.af_model.specs.StateQueue.{slots, slot_of, carries};
ghost use Rattle.af_model.specs.PlainQueue.{place_at, is_placed, held_of, returned_of, let_go, left, moved, moved_from};
ghost use Rattle.af_model.specs.declared.plain_calls.Place.TheVariants.{Nowhere, Pending};

use crate::plain_calls::{Move, Place, carries_item};
use af_base::SLOTS;
use std::mem;

impl<P: Drop> Place<P> {
    /// Whether there is an item.
    pub(crate) fn is_placed(&self) -> bool
        ensures { result ≡ is_placed self.now }
    {
        !matches!(self, Place::Nowhere)
    }

    /// Where the item of the slot is once it is detached.
    pub(crate) fn let_go(self) -> Place<P>
        ensures { result ≡ let_go self }
    {
        match self {
            Place::Pending { item } => Place::Returned { item },
            place => place,
        }
    }

    /// Where the item of the slot is after a take back, and the item.
    pub(crate) fn taken(self) -> (Place<P>, Option<P>)
        ensures place { result.0 ≡ left self }
        ensures item { result.1 ≡ returned_of self }
    {
        match self {
            Place::Returned { item } => (Place::Nowhere, Some(item)),
            place => (place, None),
        }
    }

    /// Where the item of the slot is after a move.
    pub(crate) fn moved(self, step: &Move, slot: usize) -> Place<P>
        requires { slot < slots }
        ensures { result ≡ moved step.now slot self }
    {
        match (step, self) {
            (Move::Send, Place::Pending { item }) => Place::Going { item },
            (Move::SeeAck, Place::Coming { item }) => Place::Returned { item },
            (Move::Take { .. }, Place::Going { item }) => Place::Held { item },
            (Move::Take { state }, Place::Held { item }) => {
                if carries_item(state, slot) {
                    Place::Held { item }
                } else {
                    Place::Coming { item }
                }
            }
            (_, place) => place,
        }
    }
}

/// Takes the item of a slot out of its place.
pub(crate) fn empty<P: Drop>(places: &mut Vec<Place<P>>, slot: usize) -> Place<P>
    requires { slot < length places.old.items }
    ensures place { result ≡ place_at places.old.items slot }
    ensures places { places.new.items ≡ slice_set places.old.items slot Nowhere }
{
    mem::replace(&mut places[slot], Place::Nowhere)
}

/// The item of a slot is where a detach leaves it.
pub(crate) fn detach_from<P: Drop>(places: &mut Vec<Place<P>>, slot: usize)
    requires { slot < length places.old.items }
    ensures { places.new.items ≡ slice_set places.old.items slot (let_go (place_at places.old.items slot)) }
{
    let place = empty(places, slot);
    places[slot] = place.let_go();
}

/// The item of a slot, if it is in the mutator's hand.
pub(crate) fn take_from<P: Drop>(places: &mut Vec<Place<P>>, slot: usize) -> Option<P>
    requires { slot < length places.old.items }
    ensures item { result ≡ returned_of (place_at places.old.items slot) }
    ensures places { places.new.items ≡ slice_set places.old.items slot (left (place_at places.old.items slot)) }
{
    let (place, item) = empty(places, slot).taken();
    places[slot] = place;
    item
}

/// Moves the item of a slot.
pub(crate) fn move_at<P: Drop>(places: &mut Vec<Place<P>>, slot: usize, step: &Move)
    requires slot { slot < slots }
    requires place { slot < length places.old.items }
    ensures { places.new.items ≡ slice_set places.old.items slot (moved step.now slot (place_at places.old.items slot)) }
{
    let place = empty(places, slot);
    places[slot] = place.moved(step, slot);
}

/// Moves the item of each slot.
pub(crate) fn move_all<P: Drop>(places: &mut Vec<Place<P>>, step: &Move)
    requires { length places.old.items ≡ slots }
    ensures whole { length places.new.items ≡ slots }
    ensures moved { places.new.items ≡ moved_from step.now 0 places.old.items }
{
    for i in 0..SLOTS {
        move_at(places, i, step);
    }
}

/// Which slots have an item.
pub(crate) fn placed<P: Drop>(places: &Vec<Place<P>>) -> [bool; SLOTS]
    requires { length places.now.items ≡ slots }
    ensures { result ≡ map is_placed places.now.items }
{
    let mut out = [false; SLOTS];
    for i in 0..SLOTS {
        out[i] = places[i].is_placed();
    }
    out
}
