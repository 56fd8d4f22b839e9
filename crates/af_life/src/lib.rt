//! The life of a track: what a client's commands and the mixers' reports make of it.
//!
//! Both tables are this project's own. The states have the names of AOSP's track_state, with `Absent` for a
//! track that was not opened yet.
#![tactic(auto)]

mod command;
mod edits;
mod heard;
mod kept;
mod laws;
mod obeys;
mod plain;
mod plays;
mod serves;
mod state;
mod track;

pub use command::{FLUSH, OPEN, PAUSE, REMOVE, START, STOP};
pub use edits::{free_slot, next_command};
pub use heard::NO_COUNTS;
pub use kept::{Counts, Heard, Holder, Setting, TrackKept};
pub use laws::a_drained_track_was_reached;
pub use plain::{PlainMixer, new_track, turn_weight};
pub use serves::{is_found_shut, stored_over};
pub use state::LifeState;
pub use track::{Known, Life, RETRIES, fresh};
