//! The verdict on a journal and its PCM: whether they are those of a legal run; and on a journal alone: whether it is that of a legal run, or of a cut one.
#![tactic(auto)]

mod differ;
mod drained;
mod emptied;
mod entry_mix;
mod judgement;
mod run_judge;
mod settled;
mod sound;
mod verdict;

pub use drained::drained_tracks_have_reached_their_stop;
pub use emptied::all_that_was_put_is_mixed;
pub use judgement::{judge, verify};
pub use settled::a_start_seen_settled_bounds_what_is_discarded;
pub use sound::pcm;
pub use verdict::{Refusal, Verdict};
