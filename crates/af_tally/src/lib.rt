//! What is counted of a run as it goes on: its tally, its summary, and the bytes of its sound.
#![tactic(auto)]

mod costs;
mod sound;
mod summary;
mod tally;

pub use costs::{Costs, no_costs};
pub use sound::push_pcm;
pub use summary::Summary;
pub use tally::{Tally, TrackTally};
