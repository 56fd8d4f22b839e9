//! What ties the states of a session to the run that its journal tells, and that each step of its parties keeps it: laws on single steps, which say nothing of their order.
#![tactic(auto)]

mod laws;

pub use laws::{a_mix_is_told, after_a_turn_each_track_is_told};
