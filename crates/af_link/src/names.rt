//! The names of the stream blocks, by which the state queue tells which proxy belongs to which track.
ghost use Rattle.std.specs.Prelude.{◌≡◌, List};
ghost use Rattle.std.specs.Borrow.{ftrue};
ghost use Rattle.af_cblk.specs.Sides.{Made};

use af_cblk::Block;
use af_server::Server;
use af_stateq::Fits;
use std::marker::Model;

/// Which blocks the streams of a program are, by the number of their track. It has no bytes, and contracts see the list of the blocks.
///
/// It is the key of the program's state queue: an item fits a track if it is a proxy in order that was made with the stream block of that track.
#[derive(Drop)]
pub struct StreamNames {
    pub ghost blocks: { List Made },
}

impl Model for StreamNames {
    ghost also_owns = { λ _. ftrue };
}

/// The names of these blocks.
pub fn stream_names(streams: &[Block]) -> StreamNames
    ensures { result.blocks ≡ streams.now }
{
    StreamNames {}
}

impl Fits<Server> for StreamNames {
    type Key = StreamNames;

    ghost use Rattle.af_link.specs.Names.{IsStreamOf};

    ghost fits = { λ key track server. IsStreamOf key.blocks track server };
}
