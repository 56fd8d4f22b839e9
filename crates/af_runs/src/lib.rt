//! What a run is: what a client does by its ops, and which journals are legal runs of a script and its files.
#![tactic(auto)]

mod client;
mod want;

pub use client::Client;
pub use want::{ClientCommand, Due, Mode, Want};
