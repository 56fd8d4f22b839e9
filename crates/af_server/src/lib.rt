//! A server's proxy: what it looks at, takes, counts and sets on one control block (AOSP's `AudioTrackServerProxy`).
#![tactic(auto)]

mod look;
mod meet;
mod server;
mod slot;
mod take;
mod words;

pub use look::Look;
pub use server::Server;
pub use slot::place_of;
pub use take::load_frames;
