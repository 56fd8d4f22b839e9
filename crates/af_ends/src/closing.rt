//! How the two ends of a stream are closed.
ghost use Rattle.std.specs.Prelude.{◌≡◌, ◌<◌, true, None, IfOk, IfErr};
ghost use Rattle.af_model.specs.Fates.{drops_none};
ghost use Rattle.af_ends.specs.Streams.{IsStreamClient, IsStreamServer, HasMet, LivedHistory, LivedDiscards, IsBeginning};

use crate::stream::ParkedClient;
use crate::stream_client::StreamClient;
use crate::stream_server::StreamServer;
use af_base::Steps;
use af_cblk::Block;
use af_client::Client;
use af_link::meet_track;
use af_server::Server;
use std::marker::{Brand, Model};
use std::sync::ledger::{Blank, Ledger};

/// A stream whose two ends were closed, and have met: both proxies, with the lists of all that they did.
#[derive(Drop)]
pub struct Lived {
    client: Client,
    server: Server,
}

impl Model for Lived {
    ghost use Rattle.af_ends.specs.Streams.{LivedState};

    ghost Value = { LivedState };

    ghost view = { λ l. record { client = l.client; server = l.server } };
}

impl Lived {
    /// How many frames the client released.
    pub fn released(&self) -> u64
        ensures { result ≡ self.now.client.released }
    {
        self.client.released()
    }

    /// How many frames the server took and discarded together, up to 2^63 - 1.
    pub fn consumed(&self) -> u64
        ensures { result ≡ self.now.server.consumed }
    {
        self.server.consumed()
    }
}

// The two ends of a stream meet.
fn meet_in<L: Ledger>(blank: Blank, block: &Block, client: &mut Client, server: &mut Server)
    requires ledger { (blank.name ≡ L.name) × (blank.parts ≡ L.parts) × (0 < blank.parts) }
    requires client { IsStreamClient block.now client.old }
    requires server { IsStreamServer block.now server.old }
    ensures client { IsStreamClient block.now client.new }
    ensures met { HasMet server.old (record { client = client.new; server = server.new }) }
    ensures history { LivedHistory block.now.shape (record { client = client.new; server = server.new }) }
    ensures unshut { server.new.shut ≡ None }
    ensures discards { LivedDiscards block.now.shape (record { client = client.new; server = server.new }) }
    ensures begins { drops_none server.old.pass.part.events ≡ true → IsBeginning server.new.pass.part.frames client.new.pass.part.frames }
{
    let mut steps = Steps::<L>::start(blank);
    meet_track(client, server, block, &mut steps);
}

impl StreamClient {
    /// Closes the client's end. Its list is left with the stream, for the server's end. No refusal comes.
    pub fn close(self) {
        let StreamClient { stream, client } = self;
        stream.park(ParkedClient { client });
    }
}

impl StreamServer {
    /// Closes the server's end after the client's: the two meet, and the stream is freed. If the client's end isn't closed, the server's end is given back as it is.
    ///
    /// The client never poked. Whatever the order in which the steps of the two came, their lists have a history: the frames taken are those released at their positions. If nothing was discarded, the frames taken are a beginning of those released. What a look discarded was released before the flush that it saw, and all that was released before that flush is taken or discarded. No look found front and rear that do not fit the block.
    pub fn close(self) -> Result<Lived, StreamServer>
        ensures open { IfErr result (λ s. s ≡ self) }
        ensures client { IfOk result (λ l. IsStreamClient self.block l.client) }
        ensures met { IfOk result (λ l. HasMet self.server l) }
        ensures history { IfOk result (λ l. LivedHistory self.block.shape l) }
        ensures unshut { IfOk result (λ l. l.server.shut ≡ None) }
        ensures discards { IfOk result (λ l. LivedDiscards self.block.shape l) }
        ensures begins { IfOk result (λ l. drops_none self.server.pass.part.events ≡ true → IsBeginning l.server.pass.part.frames l.client.pass.part.frames) }
    {
        let Some(parked) = self.stream.parked() else {
            return Err(self);
        };
        let StreamServer { stream, mut server } = self;
        let mut client = parked.client;
        meet_in::<Brand>(Blank::new(1), stream.what(), &mut client, &mut server);
        Ok(Lived { client, server })
    }
}

/// Closes both ends of a stream, which meet then. If they are not of one stream, the client's end is closed and the server's end given back as it is.
///
/// `StreamServer::close` says what holds then of the stream's whole life.
pub fn close(client: StreamClient, server: StreamServer) -> Result<Lived, StreamServer>
    ensures open { IfErr result (λ s. s ≡ server) }
    ensures client { IfOk result (λ l. IsStreamClient server.block l.client) }
    ensures met { IfOk result (λ l. HasMet server.server l) }
    ensures history { IfOk result (λ l. LivedHistory server.block.shape l) }
    ensures unshut { IfOk result (λ l. l.server.shut ≡ None) }
    ensures discards { IfOk result (λ l. LivedDiscards server.block.shape l) }
    ensures begins { IfOk result (λ l. drops_none server.server.pass.part.events ≡ true → IsBeginning l.server.pass.part.frames l.client.pass.part.frames) }
{
    client.close();
    server.close()
}
