//! Whether lists of events have an order in which each event is legal.
#![tactic(auto)]

mod events;
mod merging;
mod one_order;
mod pieces;
mod search;
mod step;

pub use merging::{Merge, merge_check};
