//! Tests of the commands: which words fit, what is recorded, looped, generated and found of journals, how each command ends, and what it leaves when its outside fails.
#![tactic(auto)]

#[cfg(test)]
mod ending_tests;
#[cfg(test)]
mod failing_tests;
#[cfg(test)]
mod generating_tests;
#[cfg(test)]
mod judging_tests;
#[cfg(test)]
mod plain_tests;
#[cfg(test)]
mod shared;
#[cfg(test)]
mod verifying_tests;
#[cfg(test)]
mod words;
#[cfg(test)]
mod words_tests;
