//! The events of a state queue: its mutator's and its observer's, with the states and items that changed hands.
use af_base::FastState;
use std::collections::LinkedList;

/// What the mutator of a queue did.
pub enum MutatorEvent<P> {
    /// The mutator showed the state of this number, and sent the items of the newly attached slots with it. An entry stands for each slot.
    Push {
        number: u64,
        state: FastState,
        items: LinkedList<Option<P>>,
    },
    /// The mutator saw that the state of this number was the last acknowledged, and these items came into its hand.
    SawAck {
        number: u64,
        items: LinkedList<Option<P>>,
    },
    /// So many of the observer's events stand before.
    Learn {
        count: u64,
    },
}

/// What the observer of a queue did.
pub enum ObserverEvent<P> {
    /// The observer saw that the state of this number was the last pushed. If it was new to it, it took that state and its items.
    SawNext {
        number: u64,
        state: Option<FastState>,
        items: LinkedList<Option<P>>,
    },
    /// The observer acknowledged the state of this number, and gave back the items of the detached slots.
    Ack {
        number: u64,
        items: LinkedList<Option<P>>,
    },
    /// So many of the mutator's events stand before.
    Learn {
        count: u64,
    },
}
