//! That the entry of a turn tells what the turn leaves: a law over the turns of the normal mixer.
#![tactic(auto)]

mod laws;

pub use laws::an_entry_tells_what_a_turn_leaves;
