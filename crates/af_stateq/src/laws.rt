//! What a history says of the states and of the items.
ghost use Rattle.std.specs.Prelude.{ℕ, List};
ghost use Rattle.af_base.specs.declared.state.FastState.{FastState as State};
ghost use Rattle.af_model.specs.declared.states.MutatorEvent.{MutatorEvent};
ghost use Rattle.af_model.specs.declared.states.ObserverEvent.{ObserverEvent};
ghost use Rattle.af_model.specs.StateQueue.{HasStateHistory};
ghost use Rattle.af_stateq.specs.Laws.{PolledInOrder, OneHolder, SeesTheLast, SeesTheAck};
ghost use Rattle.af_model.specs.Draft.{initial};
ghost use Rattle.af_model.specs.PlainQueue.{new_queue};
ghost use Rattle.af_stateq.specs.Mutates.{Mutates, IsNewMutator};
ghost use Rattle.af_stateq.specs.Observes.{Observes, IsNewObserver};
ghost use Rattle.af_stateq.specs.OneHand.{Agrees};
ghost use Rattle.af_stateq.specs.Attached.{StaysUntilPushed};

use crate::rule::Fits;

/// In a history the states polled are a prefix of the states pushed, as values, and at most one pushed state isn't polled.
pub fn polled_are_pushed<P>()
    ensures { (first : State) (ms : List (MutatorEvent P)) (os : List (ObserverEvent P)) → HasStateHistory first ms os → PolledInOrder first ms os }
{}

/// A call leaves an attached item with the mutator: it stays pending, or its slot is detached and it is in hand, or the call is a push that carries it.
pub fn an_attached_item_stays_until_a_push_carries_it<P: Drop, N: Fits<P>>()
    ensures { (m : Mutates P N.Key) (o : Observes P N.Key) → StaysUntilPushed N.fits m o }
{}

/// In the order of a history the item of each slot is passed on only by the holder that has it: from the mutator to its shelf, to the observer, to its shelf and back. So it has one holder at each moment, and the value taken off a shelf is the value put there.
pub fn each_item_has_one_holder<P>()
    ensures { (first : State) (ms : List (MutatorEvent P)) (os : List (ObserverEvent P)) → OneHolder first ms os }
{}

/// In a history a look of an observer that has learnt of all pushes has the number of the last push, and if it shows a state that is the last one, with the items that it carried. So with both ends in one hand, and a meeting after each call, each look sees the last push.
pub fn a_look_after_a_meeting_sees_the_last_push<P>()
    ensures { (first : State) (ms : List (MutatorEvent P)) → SeesTheLast first ms }
{}

/// In a history a look at the acknowledgement of a mutator that has learnt of all acknowledgements has the number of the last one, and brings the items given back with it, once. So with both ends in one hand, and a meeting after each call, each such look sees the last acknowledgement.
pub fn a_look_after_a_meeting_sees_the_last_acknowledgement<P>()
    ensures { (first : State) (os : List (ObserverEvent P)) → SeesTheAck first os }
{}

/// The two ends of a new queue are the new plain queue.
pub fn new_ends_are_the_new_queue<P, K>()
    ensures { (frames : ℕ) (key : K) (m : Mutates P K) (o : Observes P K) → IsNewMutator key (initial frames) m → IsNewObserver key (initial frames) o → Agrees (new_queue frames) m o }
{}
