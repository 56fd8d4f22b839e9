//! The plain machines: what a block is after some events, and which orders of events are legal.
#![tactic(auto)]

mod journal;
mod mixing;
mod newest;
mod numbers;
mod plain_calls;
mod plain_places;
mod plain_queue;
mod point;
mod shape;
mod states;

pub use journal::{Journal, Rounds};
pub use mixing::{mix_entry, parts_of};
pub use newest::{ReaderEvent, WriterEvent};
pub use numbers::{know_calls, know_log, know_turn};
pub use plain_calls::{Move, Place, Poll, QueueAnswer, QueueCall, Readiness, carries_item};
pub use plain_queue::{PlainQueue, first_state};
pub use point::TrackPoint;
pub use shape::Shape;
pub use states::{MutatorEvent, ObserverEvent};
