//! The ends of a whole mixer that a program links: one for each track, the normal mixer's and the fast mixer's. Each owns its part and a share of what all work on, and each call is total: it tests at run time what the calls below it require, and refuses otherwise.
#![tactic(auto)]

mod error;
mod fast_end;
mod normal_end;
mod opening;
mod sending;
mod track_end;

pub use error::CommandError;
pub use fast_end::FastEnd;
pub use normal_end::NormalEnd;
pub use opening::open_mixer;
pub use track_end::{TrackEnd, TrackStatus};
