//! Tests of what two threads share beside blocks: the state queue, the newest-value cell, the pipe and the report; and of recordings.
#![tactic(auto)]

#[cfg(test)]
mod latest_tests;
#[cfg(test)]
mod link_tests;
#[cfg(test)]
mod queue_hand_tests;
#[cfg(test)]
mod queue_tests;
#[cfg(test)]
mod queue_threads;
#[cfg(test)]
mod record_tests;
