//! A gate before as many threads as pay: a round goes on one thread or on one for each processor, whichever took less time of late.
#![tactic(auto)]

mod cost;
mod pace;

pub use pace::Pace;
