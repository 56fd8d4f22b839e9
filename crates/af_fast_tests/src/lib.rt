//! Tests of the fast mixer: tables of cases, random runs beside a plain mixer, meetings, and runs over threads.
#![tactic(auto)]

#[cfg(test)]
mod call_tests;
#[cfg(test)]
mod forget_tests;
#[cfg(test)]
mod meeting_tests;
#[cfg(test)]
mod plain_tests;
#[cfg(test)]
mod run_tests;
#[cfg(test)]
mod table_tests;
#[cfg(test)]
mod tests;
#[cfg(test)]
mod thread_tests;
