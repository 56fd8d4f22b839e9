//! The ends of one mixer: how they are made of what its tracks are, what they share, and how they meet.
#![tactic(auto)]

mod ends;
mod making;
mod meetings;
mod shared;
mod spec;
mod tracks;

pub use ends::{Engine, TrackEnds};
pub use making::make;
pub use meetings::{meet_all, meet_ends, meet_track};
pub use shared::Shared;
pub use spec::{EngineTrack, MakeError, MixerSpec, SpecError};
