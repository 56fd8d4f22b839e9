//! What holds of the parties that a render or a play hands back, beside their journal: laws on runs, cited by the commands.
#![tactic(auto)]

mod sparing;
mod telling;

pub use sparing::{a_play_spares_what_nobody_poked, a_render_spares_what_nobody_poked};
pub use telling::{a_play_is_told_alone, what_a_play_hands_back_records_its_run};
