//! The proxy, how it is made, and what it keeps.
ghost use Rattle.std.specs.Prelude.{◌≡◌, None};
ghost use Rattle.std.specs.Borrow.{Lends, sem};
ghost use Rattle.af_cblk.specs.Rule.{new_client};
ghost use Rattle.af_cblk.specs.Sides.{client_made};
ghost use Rattle.af_cblk.specs.contracts.pass.ClientPass.{the_row as pass_row};
ghost use Rattle.af_client.specs.Order.{IsClientOf};
ghost use Rattle.af_client.specs.contracts.client.Client.{the_row};

use af_cblk::{Block, ClientPass};
use std::marker::Model;

/// The client's side of one control block: AOSP's `ClientProxy`.
///
/// It keeps its own rear, so that a word that another party stores there changes nothing. If it once saw a front that doesn't fit the block it is shut for good.
///
/// Contracts see its pass, with the list of all events so far, and the kept values. A proxy is in order if these are the ones that the list gives. `with` makes it so, and each call and each meeting keeps it so.
#[derive(Drop)]
pub struct Client {
    pub(crate) pass: ClientPass,
    // The word of the client's position.
    pub(crate) rear: u32,
    pub(crate) flushes: u32,
    pub(crate) released: u64,
    pub(crate) shut: Option<(u32, u32)>,
}

impl Model for Client {
    ghost use Rattle.af_client.specs.Order.{ClientState};

    ghost Value = { ClientState };

    ghost view = { λ c. record { pass = c.pass; rear = c.rear; flushes = c.flushes; released = c.released; shut = c.shut } };
}

impl Client {
    /// The proxy of a pass on which nothing was done, on the block that the pass was made with.
    pub fn with(pass: ClientPass, block: &Block) -> Client
        requires made { client_made pass ≡ block.now }
        requires new { pass.part ≡ new_client block.now.shape }
        ensures pass { result.pass ≡ pass }
        ensures kept { (result.flushes ≡ 0) × (result.released ≡ 0) × (result.shut ≡ None) }
        ensures ready { IsClientOf block.now result }
    {
        let rear = block.base();
        Client {
            pass,
            rear,
            flushes: 0,
            released: 0,
            shut: None,
        }
    }

    /// How many flushes this client has asked for.
    pub fn flushes(&self) -> u32
        ensures { result ≡ self.now.flushes }
    {
        self.flushes
    }

    /// How many frames this client has released.
    pub fn released(&self) -> u64
        ensures { result ≡ self.now.released }
    {
        self.released
    }

    /// The front and rear that shut this proxy, if it was shut.
    pub fn shut(&self) -> Option<(u32, u32)>
        ensures { result ≡ self.now.shut }
    {
        self.shut
    }

    /// Lends the pass to a meeting.
    pub fn pass(&mut self) -> &mut ClientPass
        ensures value { result.now ≡ self.entry.now.pass }
        ensures* lends { sem 𝓛 (Lends the_row pass_row self.entry result (λ p. record { pass = p; rear = self.entry.now.rear; flushes = self.entry.now.flushes; released = self.entry.now.released; shut = self.entry.now.shut })) }
    {
        &mut self.pass
    }
}
