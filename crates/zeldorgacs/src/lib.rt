//! The ends of streams, recordings, static buffers and mixers, for C: thin exports over the ends of af_ends and of af_mixer_ends. Each export answers, whatever its handle is.
#![tactic(auto)]

mod answers;
mod capture;
mod client;
mod closing;
mod frames;
mod handle;
mod kept;
mod listener;
mod loose;
mod mixer;
mod mixers;
mod opened;
mod opening;
mod player;
mod server;
mod setter;
mod track;
