//! What an end does with the shelves while it holds their turns.
ghost use Rattle.std.specs.Prelude.{◌≡◌, length};
ghost use Rattle.af_model.specs.StateQueue.{slots};
ghost use Rattle.af_stateq.specs.Shelved.{BeginsWithShelves, AreExchanged};

use crate::cell::{CELLS, Slot};
use crate::rule::{Fits, Queue};
use crate::view::View;
use af_base::SLOTS;
use atomic_table::Seat;
use std::mem;

/// Each item changes places with what lies on the shelf of its slot. The shelves, which come first of the slots held, come behind the others.
pub(crate) fn exchange<P: Drop, N: Fits<P>>(
    queue: &Queue<P, N>,
    seat: &mut Seat<Slot<P>, View<P, N::Key>>,
    items: &mut Vec<Option<P>>,
)
    requires together { seat.old.table_id ≡ queue.now }
    requires whole { length items.old.items ≡ slots }
    requires held { BeginsWithShelves seat.old.me.1 }
    ensures same { (seat.new.table_id ≡ seat.old.table_id) × (seat.new.id ≡ seat.old.id) × (seat.new.me.0 ≡ seat.old.me.0) }
    ensures exchanged { AreExchanged seat.old.me.1 items.old.items seat.new.me.1 items.new.items }
{
    let shared = &queue.table.shared;
    for i in 0..SLOTS {
        let shelf = seat.slot_mut(shared, CELLS + i);
        mem::swap(&mut shelf.item, &mut items[i]);
        seat.turn();
    }
}
