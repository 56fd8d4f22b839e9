//! Tests of journals and their texts, of logs of notes, of static buffers, of tallies and summaries, and of the cycles that are enough for a script.
#![tactic(auto)]

#[cfg(test)]
mod building_tests;
#[cfg(test)]
mod client_tests;
#[cfg(test)]
mod enough_tests;
#[cfg(test)]
mod line_tests;
#[cfg(test)]
mod note_tests;
#[cfg(test)]
mod reading_tests;
#[cfg(test)]
mod sound_tests;
#[cfg(test)]
mod static_tests;
#[cfg(test)]
mod static_threads;
#[cfg(test)]
mod tally_tests;
