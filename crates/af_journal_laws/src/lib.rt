//! What follows from a journal, whatever command made it and however it ended: laws on legal runs, cut runs and turn runs.
#![tactic(auto)]

mod alive;
mod all;
mod drained;
mod ended;
mod fates;
mod settled;
mod spared;

pub use alive::{no_met_call_is_dead, no_met_call_of_turn_runs_is_dead};
pub use all::{what_follows_of_rounds, what_follows_of_turn_runs};
pub use drained::{drained_tracks_have_stopped, drained_tracks_of_turn_runs_have_stopped};
pub use ended::a_legal_run_ends_with_a_meeting;
pub use fates::{met_frames_have_one_fate, met_frames_of_turn_runs_have_one_fate};
pub use settled::{settled_starts_keep, settled_starts_of_turn_runs_keep};
pub use spared::{met_blocks_are_spared, met_blocks_of_turn_runs_are_spared};
