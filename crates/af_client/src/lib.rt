//! A client's proxy: what it writes, flushes, sets and asks on one control block (AOSP's `AudioTrackClientProxy`).
#![tactic(auto)]

mod client;
mod put;
mod send;
mod words;
mod write;

pub use client::Client;
pub use put::store_frames;
pub use send::Sent;
pub use write::Wrote;
