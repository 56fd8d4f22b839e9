//! Tests of blocks and of both proxies, of merges of their lists, of the plain queue and of the mix of an entry.
#![tactic(auto)]

#[cfg(test)]
mod block_tests;
#[cfg(test)]
mod call_tests;
#[cfg(test)]
mod calls;
#[cfg(test)]
mod causes;
#[cfg(test)]
mod hostile_tests;
#[cfg(test)]
mod merge_plain;
#[cfg(test)]
mod merge_random;
#[cfg(test)]
mod merge_tests;
#[cfg(test)]
mod mixing_tests;
#[cfg(test)]
mod plain_queue_tests;
#[cfg(test)]
mod relay;
#[cfg(test)]
mod sides;
