//! That the journal of a render is a turn run: what ties the states of a session to the run that its journal tells.
#![tactic(auto)]

mod laws;

pub use laws::a_render_is_told_by_its_journal;
