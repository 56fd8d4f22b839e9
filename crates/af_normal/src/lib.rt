//! The normal mixer: each turn it hears of all tracks, obeys their commands, sets what the fast mixer plays, and mixes the tracks that have no slot into the pipe (AOSP's MixerThread).
//!
//! What a turn is, which one is legal, and what it leaves stands in af_life, over plain values. Here it is done at the blocks, the queue, the report and the pipe, and each step has a contract of its own: the hands, what comes home, what is learnt, a track's part, the edits of the draft, the push, and the buffer.
#![tactic(auto)]

mod acks;
mod attend;
mod buffer;
mod commands;
mod edits;
mod make;
mod meetings;
mod mixer;
mod plays;
mod serve;
mod sums;
mod turn;

pub use make::{TrackSetup, Tracks};
pub use mixer::{NormalMixer, TrackHand};
pub use turn::{MOST_TURNS, Turn};
