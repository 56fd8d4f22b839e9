//! How many cycles are enough for a script to be played to its end.
#![tactic(auto)]

mod enough;

pub use enough::{MOST_GAINS, enough_cycles};
