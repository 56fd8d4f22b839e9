//! What the two ends of a stream share, and how they are made.
ghost use Rattle.std.specs.Prelude.{◌≤◌, IfOk, IfErr};
ghost use Rattle.af_ends.specs.Streams.{IsOpened};
ghost use Rattle.af_ends.specs.Refusals.{RefusesSize};

use crate::common::Common;
use crate::error::EndError;
use crate::stream_client::StreamClient;
use crate::stream_server::StreamServer;
use af_base::Memory;
use af_cblk::Block;
use af_client::Client;
use af_server::Server;
use counted_slot::Fits;
use std::alloc::Global;
use std::sync::Arc;

/// How many frames a stream, a recording or a static buffer may have at most.
pub const MOST_FRAMES: u32 = 8192;

/// The client of a stream, once its end is closed.
#[derive(Drop)]
pub struct ParkedClient {
    pub(crate) client: Client,
}

impl Fits for ParkedClient {
    ghost use Rattle.af_ends.specs.Streams.{IsStreamClient};

    type Tag = Block;

    ghost fits = { λ block parked. IsStreamClient block parked.client };
}

// The two ends of a new stream.
fn make(alloc: Global, frames: u32) -> Result<(StreamClient, StreamServer), Memory>
    requires { (1 ≤ frames) × (frames ≤ 8192) }
    ensures { IfOk result (λ r. IsOpened frames r.0 r.1) }
{
    let (block, client, server) = Block::make_positional(alloc, frames, 0)?;
    let client = Client::with(client, &block);
    let server = Server::with(server, &block);
    let stream = Arc::new(alloc, Common::new(block))?;
    let theirs = Arc::try_clone(&stream)?;
    let client = StreamClient { stream, client };
    let server = StreamServer {
        stream: theirs,
        server,
    };
    Ok((client, server))
}

/// Opens a stream for `frames` frames, 1 to 8192: its two ends, which have done nothing.
///
/// Argument exactly if `frames` is outside that range. Memory if an allocation was refused.
pub fn open_stream(alloc: Global, frames: u32) -> Result<(StreamClient, StreamServer), EndError>
    ensures opened { IfOk result (λ r. IsOpened frames r.0 r.1) }
    ensures size { IfOk result (λ r. (1 ≤ frames) × (frames ≤ 8192)) }
    ensures refused { IfErr result (λ e. RefusesSize frames e) }
{
    if frames == 0 || frames > MOST_FRAMES {
        return Err(EndError::Argument);
    }
    match make(alloc, frames) {
        Ok(ends) => Ok(ends),
        Err(Memory) => Err(EndError::Memory),
    }
}
