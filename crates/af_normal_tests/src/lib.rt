//! Tests of the normal mixer and of the ends of a whole mixer.
#![tactic(auto)]

#[cfg(test)]
mod call_tests;
#[cfg(test)]
mod choice_tests;
#[cfg(test)]
mod client_tests;
#[cfg(test)]
mod end_tests;
#[cfg(test)]
mod held_tests;
#[cfg(test)]
mod joints;
#[cfg(test)]
mod making_tests;
#[cfg(test)]
mod meeting_tests;
#[cfg(test)]
mod random_tests;
#[cfg(test)]
mod rows;
#[cfg(test)]
mod stream_tests;
#[cfg(test)]
mod table_tests;
#[cfg(test)]
mod tests;
