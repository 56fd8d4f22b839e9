//! The ends that a program links. Each owns its proxy and a share of what it works on. Each call is total: it tests at run time what the calls below it require, and refuses otherwise.
#![tactic(auto)]

mod client_calls;
mod closing;
mod common;
mod error;
mod exclusive;
mod record_ends;
mod static_ends;
mod stream;
mod stream_client;
mod stream_server;

pub use client_calls::{
    client_clear_disabled, client_flush, client_set_gains, client_status, client_write,
};
pub use closing::{Lived, close};
pub use error::EndError;
pub use record_ends::{CaptureEnd, ListenerEnd, Recorded, open_record};
pub use static_ends::{Played, PlayerEnd, SetterEnd, open_static};
pub use stream::{MOST_FRAMES, open_stream};
pub use stream_client::StreamClient;
pub use stream_server::{Found, StreamServer};
