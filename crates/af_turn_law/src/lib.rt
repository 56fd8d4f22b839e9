//! That a turn run is determined by the lists of its parties: laws over orders and runs.
#![tactic(auto)]

mod laws;

pub use laws::{
    a_block_told_in_phases_is_as_told, ends_told_in_phases_are_as_told,
    turns_whose_lists_have_histories_are_a_turn_run,
};
