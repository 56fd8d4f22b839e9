//! That a script without pokes has one turn run: laws over what the parties of a run see.
#![tactic(auto)]

mod laws;

pub use laws::a_script_without_pokes_has_one_turn_run;
