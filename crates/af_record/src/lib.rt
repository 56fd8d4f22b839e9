//! Recording: one end supplies frames to a block and never waits, the other reads them. What finds no room is lost and counted.
#![tactic(auto)]

mod capture;
mod ends;
mod in_hand;
mod listener;
mod putting;

pub use capture::Supplied;
pub use ends::{Capture, Listener, make, meet_record};
pub use in_hand::InHand;
