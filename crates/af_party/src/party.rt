//! A client of a session.
ghost use Rattle.std.specs.Prelude.{◌≡◌};

use af_base::{ClientCall, Items};
use af_client::Client as Proxy;
use af_runs::Client;
use std::marker::Model;

/// A client of a session: the number of its track, what it wants by its ops, its proxies of the stream's block and of the command block, and the calls of its last turn.
#[derive(Drop)]
pub struct Party {
    pub track: u32,
    pub client: Client,
    pub stream: Proxy,
    pub command: Proxy,
    pub calls: Items<ClientCall>,
}

impl Model for Party {
    ghost use Rattle.af_party.specs.Parties.{PartyState};

    ghost Value = { PartyState };

    ghost view = { λ p. record { track = p.track; client = p.client; stream = p.stream; command = p.command; calls = p.calls } };
}

impl Party {
    /// Whether the client has ended.
    pub fn has_ended(&self) -> bool
        ensures { result ≡ self.now.client.ended }
    {
        self.client.has_ended()
    }

    // How many frames the client has released to the stream's block.
    pub fn released(&self) -> u64
        ensures { result ≡ self.now.stream.released }
    {
        self.stream.released()
    }
}
