//! The fast mixer: each cycle polls for a state, mixes what the tracks and the pipe show, and never waits (AOSP's FastMixer).
#![tactic(auto)]

mod current;
mod cycle;
mod entry;
mod forgetting;
mod heard;
mod held;
mod meetings;
mod mixer;
mod report;
mod slots;
mod submix;

pub use mixer::FastMixer;
