//! Tests of what stands lowest: frames, gains and mixes; bytes, stores, sinks and a real folder; a track's life and the plain mixer; scripts and their texts; and the gate that asks the clock.
#![tactic(auto)]

#[cfg(test)]
mod base_tests;
#[cfg(test)]
mod gain_tests;
#[cfg(test)]
mod io_tests;
#[cfg(test)]
mod life_tests;
#[cfg(test)]
mod pace_tests;
#[cfg(test)]
mod plain_tests;
#[cfg(test)]
mod printed_tests;
#[cfg(test)]
mod printing_tests;
#[cfg(test)]
mod script_tests;
