//! How a queue is made, and how its ends meet.
ghost use Rattle.std.specs.Prelude.{◌≡◌, [], ◌∷◌, ◌++◌, ◌+◌, length, true, false, None, Some, IfOk, replicate};
ghost use Rattle.af_model.specs.Draft.{initial};
ghost use Rattle.af_model.specs.StateQueue.{slots, HasStateHistory};
ghost use Rattle.af_stateq.specs.Mutates.{IsNewMutator};
ghost use Rattle.af_stateq.specs.Observes.{IsNewObserver, InOrder};
ghost use Rattle.af_stateq.specs.Shelved.{cells, nothing, starting};
ghost use Rattle.af_model.specs.declared.states.MutatorEvent.TheVariants as mutates;
ghost use Rattle.af_model.specs.declared.states.ObserverEvent.TheVariants as observes;

use crate::cell::{CELLS, Slot};
use crate::ends::{MutatorEnd, ObserverEnd};
use crate::mutator::Mutator;
use crate::observer::Observer;
use crate::plays::{Meet, Part, SitMutator, SitObserver};
use crate::rule::{Basis, Fits, Queue, Shelved};
use crate::view::View;
use af_base::{FastState, Memory, SLOTS, Steps};
use af_model::first_state;
use atomic_table::{Seat, Table};
use std::alloc::Global;
use std::sync::ledger::Ledger;

// The table of a queue.
type Laid<P, N> = Table<
    Slot<P>,
    View<P, <N as Fits<P>>::Key>,
    Basis<<N as Fits<P>>::Key>,
    Shelved<N>,
    Global,
>;

/// No item for any slot.
pub(crate) fn no_items<P: Drop>(alloc: Global) -> Result<Vec<Option<P>>, Memory>
    ensures { IfOk result (λ v. v.items ≡ nothing) }
{
    let Ok(mut items) = Vec::with_capacity(alloc, SLOTS) else {
        return Err(Memory);
    };
    for _slot in 0..SLOTS {
        items.push_reserved(None);
    }
    Ok(items)
}

/// The cells and the empty shelves, all with the first state.
fn table_slots<P: Drop>(alloc: Global, state: FastState) -> Result<Vec<Slot<P>>, Memory>
    ensures { IfOk result (λ v. v.items ≡ replicate (cells + slots) record { state = state; item = None }) }
{
    let Ok(mut places) = Vec::with_capacity(alloc, CELLS + SLOTS) else {
        return Err(Memory);
    };
    for _slot in 0..CELLS + SLOTS {
        places.push_reserved(Slot { state, item: None });
    }
    Ok(places)
}

/// The table of a queue, and its one seat.
fn table_of<P: Drop, N: Fits<P>>(
    alloc: Global,
    first: FastState,
    key: N::Key,
) -> Result<(Laid<P, N>, Seat<Slot<P>, View<P, N::Key>>), Memory>
    ensures laid { IfOk result (λ t. (t.0.shared.table_id.words ≡ 2) × (t.0.shared.table_id.slots ≡ cells + slots) × (t.0.shared.key ≡ record { first = first; key = key })) }
    ensures seat { IfOk result (λ t. (t.1.table_id ≡ t.0.shared.table_id) × (t.1.id ≡ 0) × (t.1.me ≡ (starting t.0.shared.key, []))) }
{
    let places = table_slots(alloc, first)?;
    let basis = Basis { first, key };
    let Ok((table, seat)) = Table::new(alloc, &[0, 0], places, &basis) else {
        return Err(Memory);
    };
    Ok((table, seat))
}

/// The two ends of a table that no end has used.
fn ends_at<P: Drop, N: Fits<P>>(
    table: Laid<P, N>,
    seat: Seat<Slot<P>, View<P, N::Key>>,
) -> (Queue<P, N>, MutatorEnd<P, N>, ObserverEnd<P, N>)
    requires laid { (table.shared.table_id.words ≡ 2) × (table.shared.table_id.slots ≡ cells + slots) }
    requires seat { (seat.table_id ≡ table.shared.table_id) × (seat.id ≡ 0) × (seat.me ≡ (starting table.shared.key, [])) }
    ensures together { (result.1.queue ≡ result.0) × (result.2.queue ≡ result.0) }
    ensures mutator { let b = table.shared.key in (result.1.key ≡ Some b.key) × (result.1.first ≡ b.first) × (result.1.last ≡ b.first) × (result.1.number ≡ 0) × (result.1.clear ≡ true) × (result.1.events ≡ []) }
    ensures observer { let b = table.shared.key in (result.2.key ≡ Some b.key) × (result.2.state ≡ b.first) × (result.2.number ≡ 0) × (result.2.due ≡ false) × (result.2.events ≡ []) }
{
    let mut seat = seat;
    let mut other = table.shared.split_seat::<Part>(&mut seat);
    table.shared.load::<SitMutator>(&mut seat, 0);
    table.shared.load::<SitObserver>(&mut other, 0);
    let mutator = MutatorEnd {
        seat,
        number: 0,
        clear: true,
    };
    let observer = ObserverEnd {
        seat: other,
        number: 0,
        due: false,
    };
    (Queue { table }, mutator, observer)
}

/// The table of a queue with its two ends. Nothing is pushed.
pub(crate) fn ends_of<P: Drop, N: Fits<P>>(
    alloc: Global,
    first: FastState,
    key: N::Key,
) -> Result<(Queue<P, N>, MutatorEnd<P, N>, ObserverEnd<P, N>), Memory>
    ensures together { IfOk result (λ l. (l.1.queue ≡ l.0) × (l.2.queue ≡ l.0)) }
    ensures mutator { IfOk result (λ l. (l.1.key ≡ Some key) × (l.1.first ≡ first) × (l.1.last ≡ first) × (l.1.number ≡ 0) × (l.1.clear ≡ true) × (l.1.events ≡ [])) }
    ensures observer { IfOk result (λ l. (l.2.key ≡ Some key) × (l.2.state ≡ first) × (l.2.number ≡ 0) × (l.2.due ≡ false) × (l.2.events ≡ [])) }
{
    let (table, seat) = table_of::<P, N>(alloc, first, key)?;
    Ok(ends_at(table, seat))
}

/// Each end learns of the other's events. It takes five steps.
pub(crate) fn meet_ends<P: Drop, N: Fits<P>, L: Ledger>(
    queue: &Queue<P, N>,
    mutator: &mut MutatorEnd<P, N>,
    observer: &mut ObserverEnd<P, N>,
    steps: &mut Steps<L>,
)
    requires together { (mutator.old.queue ≡ queue.now) × (observer.old.queue ≡ queue.now) }
    requires due { observer.old.due ≡ false }
    ensures before { HasStateHistory mutator.old.first mutator.old.events observer.old.events }
    ensures history { HasStateHistory mutator.new.first mutator.new.events observer.new.events }
    ensures mutator { mutator.new ≡ record mutator.old { events = mutator.old.events ++ mutates.Learn (length observer.old.events) ∷ [] } }
    ensures observer { observer.new ≡ record observer.old { events = observer.old.events ++ observes.Learn (length mutator.old.events) ∷ [] } }
    ensures steps { steps.new ≡ steps.old + 5 }
{
    let shared = &queue.table.shared;
    steps.tick();
    let part = shared.split_seat::<Part>(&mut observer.seat);
    steps.tick();
    shared.join_seat::<Part>(&mut mutator.seat, part);
    steps.tick();
    shared.load::<Meet>(&mut mutator.seat, 0);
    steps.tick();
    let part = shared.split_seat::<Part>(&mut mutator.seat);
    steps.tick();
    shared.join_seat::<Part>(&mut observer.seat, part);
}

/// A queue with its two ends, for states of `frames` frames and items that fit by `key`. Nothing is pushed. In the draft the submix alone is active, with the command ColdIdle, and no slot has an item. Memory is its only refusal.
pub fn queue<P: Drop, N: Fits<P>>(
    alloc: Global,
    frames: u32,
    key: N::Key,
) -> Result<(Queue<P, N>, Mutator<P, N>, Observer<P, N>), Memory>
    ensures together { IfOk result (λ l. (l.1.past.queue ≡ l.0) × (l.2.past.queue ≡ l.0)) }
    ensures mutator { IfOk result (λ l. IsNewMutator key (initial frames) l.1) }
    ensures observer { IfOk result (λ l. IsNewObserver key (initial frames) l.2 × InOrder N.fits l.2) }
{
    let first = first_state(frames);
    let pending = no_items(alloc)?;
    let returned = no_items(alloc)?;
    let spare = no_items(alloc)?;
    let items = no_items(alloc)?;
    let moving = no_items(alloc)?;
    let (queue, pushes, polls) = ends_of(alloc, first, key)?;
    let mutator = Mutator {
        end: pushes,
        draft: first,
        dirty: false,
        editing: false,
        edited: false,
        pending,
        returned,
        out: [false; SLOTS],
        spare,
    };
    let observer = Observer {
        end: polls,
        current: None,
        previous: None,
        items,
        moving,
    };
    Ok((queue, mutator, observer))
}

/// Each end learns that the other's list so far stands in the history before its own next event. The lists have a history as they stood before, and with what was learnt. It takes five steps.
pub fn meet<P: Drop, N: Fits<P>, L: Ledger>(
    queue: &Queue<P, N>,
    mutator: &mut Mutator<P, N>,
    observer: &mut Observer<P, N>,
    steps: &mut Steps<L>,
)
    requires together { (mutator.old.past.queue ≡ queue.now) × (observer.old.past.queue ≡ queue.now) }
    ensures before { HasStateHistory mutator.old.past.first mutator.old.past.events observer.old.past.events }
    ensures history { HasStateHistory mutator.new.past.first mutator.new.past.events observer.new.past.events }
    ensures mutator { mutator.new ≡ record mutator.old { past = record mutator.old.past { events = mutator.old.past.events ++ mutates.Learn (length observer.old.past.events) ∷ [] } } }
    ensures observer { observer.new ≡ record observer.old { past = record observer.old.past { events = observer.old.past.events ++ observes.Learn (length mutator.old.past.events) ∷ [] } } }
    ensures steps { steps.new ≡ steps.old + 5 }
{
    meet_ends(queue, &mut mutator.end, &mut observer.end, steps);
}
