//! What a seat at the table knows. No value of these types is made.
use af_base::FastState;
use af_model::{MutatorEvent, ObserverEvent};
use std::collections::LinkedList;

/// The key, the first content, the mutator's events, the number of the last state, that state and the one before, and whether its acknowledgement was seen.
pub struct Mutating<P, K> {
    pub key: Option<K>,
    pub first: FastState,
    pub events: LinkedList<MutatorEvent<P>>,
    pub pushed: u64,
    pub last: FastState,
    pub before: FastState,
    pub clear: bool,
    pub out: bool,
}

/// The key, the observer's events, the number of the state that it acknowledged last, that state, whether it took the next one, and that one.
pub struct Observing<P, K> {
    pub key: Option<K>,
    pub events: LinkedList<ObserverEvent<P>>,
    pub current: u64,
    pub state: FastState,
    pub due: bool,
    pub next: FastState,
    pub out: bool,
}

/// Each seat has the two parts, and says which of them are its own.
pub struct View<P, K> {
    pub mutates: bool,
    pub mutating: Mutating<P, K>,
    pub observes: bool,
    pub observing: Observing<P, K>,
}
