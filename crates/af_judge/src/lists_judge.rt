//! The lists of a block's parties, and whether they have a legal order.
ghost use Rattle.std.specs.Prelude.{◌≡◌, ◌∷◌, [], ◌++◌, ◌↔◌, ◌≤◌, ◌^◌, length, IfOk, IsTrue, OnErr, OnOk};
ghost use Rattle.af_merges.specs.Merges.{HasLegalOrder};
ghost use Rattle.af_model.specs.Point.{start};

use crate::look::start;
use af_base::{ClientEvent, HandEvent, Memory, ServerEvent};
use af_merges::Merge;
use af_model::Shape;
use std::alloc::Global;
use std::marker::Model;

// The most events of one party that can be judged.
const MOST_EVENTS: u64 = 0x4000_0000;

/// What each party of a block did. The events up to the last time that an order was asked for are joined in the merge, and the later ones wait.
#[derive(Drop)]
pub struct ListsJudge {
    merge: Merge,
    clients: Vec<ClientEvent>,
    servers: Vec<ServerEvent>,
    hands: Vec<HandEvent>,
    joined_clients: u64,
    joined_servers: u64,
    joined_hands: u64,
}

impl Model for ListsJudge {
    ghost use Rattle.std.specs.Prelude.{◌++◌};
    ghost use Rattle.af_judge.specs.Blocks.{IsJoined, Lists};

    ghost Value = { Lists };

    ghost view = { λ l. record { from = l.merge.from; client = l.merge.client ++ l.clients.items; server = l.merge.server ++ l.servers.items; hand = l.merge.hand ++ l.hands.items } };

    ghost invariant = { λ l. IsJoined l.joined_clients l.merge.client × IsJoined l.joined_servers l.merge.server × IsJoined l.joined_hands l.merge.hand };
}

impl ListsJudge {
    /// No events yet, on a block of this shape.
    pub fn new(alloc: Global, shape: Shape) -> ListsJudge
        ensures { result ≡ record { from = start shape; client = []; server = []; hand = [] } }
    {
        ListsJudge {
            merge: Merge::new(alloc, &start(shape)),
            clients: Vec::new(alloc),
            servers: Vec::new(alloc),
            hands: Vec::new(alloc),
            joined_clients: 0,
            joined_servers: 0,
            joined_hands: 0,
        }
    }

    /// The client did this.
    pub fn client_does(&mut self, event: ClientEvent) -> Result<(), Memory>
        ensures told { OnOk result (self.new ≡ record self.old { client = self.old.client ++ event ∷ [] }) }
        ensures kept { OnErr result (self.new ≡ self.old) }
    {
        self.clients.push(event)?;
        Ok(())
    }

    /// The server did this.
    pub fn server_does(&mut self, event: ServerEvent) -> Result<(), Memory>
        ensures told { OnOk result (self.new ≡ record self.old { server = self.old.server ++ event ∷ [] }) }
        ensures kept { OnErr result (self.new ≡ self.old) }
    {
        self.servers.push(event)?;
        Ok(())
    }

    /// The hand did this.
    pub fn hand_does(&mut self, event: HandEvent) -> Result<(), Memory>
        ensures told { OnOk result (self.new ≡ record self.old { hand = self.old.hand ++ event ∷ [] }) }
        ensures kept { OnErr result (self.new ≡ self.old) }
    {
        self.hands.push(event)?;
        Ok(())
    }

    /// How many events the client did.
    pub fn clients(&self) -> u64
        ensures { result ≡ length self.now.client }
    {
        self.joined_clients + self.clients.len() as u64
    }

    /// How many the server did.
    pub fn servers(&self) -> u64
        ensures { result ≡ length self.now.server }
    {
        self.joined_servers + self.servers.len() as u64
    }

    // How many the hand did.
    fn hands(&self) -> u64
        ensures { result ≡ length self.now.hand }
    {
        self.joined_hands + self.hands.len() as u64
    }

    // Each list can be judged.
    fn are_short(&self) -> bool
        ensures clients { IsTrue result → length self.now.client ≤ 2 ^ 30 }
        ensures servers { IsTrue result → length self.now.server ≤ 2 ^ 30 }
        ensures hands { IsTrue result → length self.now.hand ≤ 2 ^ 30 }
    {
        self.clients() <= MOST_EVENTS
            && self.servers() <= MOST_EVENTS
            && self.hands() <= MOST_EVENTS
    }

    // The events that waited are joined, and wait no more.
    fn join(&mut self) -> Result<bool, Memory>
        requires clients { length self.old.client ≤ 2 ^ 30 }
        requires servers { length self.old.server ≤ 2 ^ 30 }
        requires hands { length self.old.hand ≤ 2 ^ 30 }
        ensures order { IfOk result (λ yes. IsTrue yes ↔ HasLegalOrder self.new.from self.new.client self.new.server self.new.hand) }
        ensures same { self.new ≡ self.old }
    {
        let clients = self.clients();
        let servers = self.servers();
        let hands = self.hands();
        let has = self
            .merge
            .extend(&self.clients, &self.servers, &self.hands)?;
        self.joined_clients = clients;
        self.joined_servers = servers;
        self.joined_hands = hands;
        self.clients.clear();
        self.servers.clear();
        self.hands.clear();
        Ok(has)
    }

    /// Whether the lists have a legal order. Lists that are too long to be judged are refused as memory.
    pub fn has_order(&mut self) -> Result<bool, Memory>
        ensures order { IfOk result (λ yes. IsTrue yes ↔ HasLegalOrder self.new.from self.new.client self.new.server self.new.hand) }
        ensures same { self.new ≡ self.old }
    {
        if !self.are_short() {
            return Err(Memory);
        }
        self.join()
    }
}
