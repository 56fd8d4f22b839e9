//! Tests of the ends that the library hands out, of streams, recordings, static buffers and whole mixers: each call and each refusal as tables, lives from their opening to their end, and all parties on threads of their own.
#![tactic(auto)]

#[cfg(test)]
mod closing_tests;
#[cfg(test)]
mod frames;
#[cfg(test)]
mod life_tests;
#[cfg(test)]
mod mixer_thread_tests;
#[cfg(test)]
mod mixers;
#[cfg(test)]
mod period_tests;
#[cfg(test)]
mod record_tests;
#[cfg(test)]
mod refusal_tests;
#[cfg(test)]
mod static_tests;
#[cfg(test)]
mod stream_calls;
#[cfg(test)]
mod stream_tests;
#[cfg(test)]
mod thread_tests;
#[cfg(test)]
mod trials;
