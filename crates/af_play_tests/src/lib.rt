//! Tests of sound, through the player's commands: what renders leave, and what is the same of plays and traces however the turns of the parties fall.
#![tactic(auto)]

#[cfg(test)]
mod failing_tests;
#[cfg(test)]
mod gate_tests;
#[cfg(test)]
mod mix_tests;
#[cfg(test)]
mod playing_tests;
#[cfg(test)]
mod session_tests;
#[cfg(test)]
mod shared;
#[cfg(test)]
mod sounds;
#[cfg(test)]
mod tracing_tests;
