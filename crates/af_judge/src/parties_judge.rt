//! The lists of a block's parties. A block without a hand is given one that only meets its client: it forbids nothing, and lets the search for an order forget what was before.
ghost use Rattle.std.specs.Prelude.{◌≡◌, ◌∷◌, [], ◌++◌, ◌↔◌, length, IfOk, IsTrue, OnErr, OnOk};
ghost use Rattle.af_merges.specs.Merges.{HasLegalOrder};
ghost use Rattle.af_model.specs.Point.{start};

use crate::lists_judge::ListsJudge;
use af_base::{ClientEvent, HandEvent, Memory, ServerEvent};
use af_model::Shape;
use std::alloc::Global;
use std::marker::Model;

/// What each party of a block did, and whether the block has a hand.
#[derive(Drop)]
pub struct PartiesJudge {
    lists: ListsJudge,
    has_hand: bool,
}

impl Model for PartiesJudge {
    ghost use Rattle.std.specs.Prelude.{◌≡◌, false, length};
    ghost use Rattle.af_judge.specs.Blocks.{Lists};
    ghost use Rattle.af_judge.specs.Meetings.{AreMeetings, hand_of_own};

    ghost Value = { Lists };

    ghost view = { λ p. record { from = p.lists.from; client = p.lists.client; server = p.lists.server; hand = hand_of_own p.has_hand p.lists.hand } };

    ghost invariant = { λ p. p.has_hand ≡ false → AreMeetings 0 (length p.lists.client) p.lists.hand };
}

impl PartiesJudge {
    /// No events yet, on a block of this shape.
    pub fn new(alloc: Global, shape: Shape, has_hand: bool) -> PartiesJudge
        ensures { result ≡ record { from = start shape; client = []; server = []; hand = [] } }
    {
        PartiesJudge {
            lists: ListsJudge::new(alloc, shape),
            has_hand,
        }
    }

    /// The client did this.
    pub fn client_does(&mut self, event: ClientEvent) -> Result<(), Memory>
        ensures told { OnOk result (self.new ≡ record self.old { client = self.old.client ++ event ∷ [] }) }
        ensures kept { OnErr result (self.new ≡ self.old) }
    {
        self.lists.client_does(event)
    }

    /// The server did this.
    pub fn server_does(&mut self, event: ServerEvent) -> Result<(), Memory>
        ensures told { OnOk result (self.new ≡ record self.old { server = self.old.server ++ event ∷ [] }) }
        ensures kept { OnErr result (self.new ≡ self.old) }
    {
        self.lists.server_does(event)
    }

    /// The hand did this. If there is none that is refused as memory.
    pub fn hand_does(&mut self, event: HandEvent) -> Result<(), Memory>
        ensures told { OnOk result (self.new ≡ record self.old { hand = self.old.hand ++ event ∷ [] }) }
        ensures kept { OnErr result (self.new ≡ self.old) }
    {
        if !self.has_hand {
            return Err(Memory);
        }
        self.lists.hand_does(event)
    }

    /// How many events the client did.
    pub fn clients(&self) -> u64
        ensures { result ≡ length self.now.client }
    {
        self.lists.clients()
    }

    /// How many the server did.
    pub fn servers(&self) -> u64
        ensures { result ≡ length self.now.server }
    {
        self.lists.servers()
    }

    // If there is no hand, one that was given meets the client.
    fn meet_client(&mut self) -> Result<(), Memory>
        ensures { self.new ≡ self.old }
    {
        if self.has_hand {
            return Ok(());
        }
        let client = self.lists.clients();
        self.lists.hand_does(HandEvent::Met { client })
    }

    // Whether the lists have a legal order, with the meetings of a hand that was given.
    fn are_ordered(&mut self) -> Result<bool, Memory>
        ensures order { IfOk result (λ yes. IsTrue yes ↔ HasLegalOrder self.new.from self.new.client self.new.server self.new.hand) }
        ensures same { self.new ≡ self.old }
    {
        self.lists.has_order()
    }

    /// Whether the lists have a legal order. Lists that are too long to be judged are refused as memory.
    pub fn has_order(&mut self) -> Result<bool, Memory>
        ensures order { IfOk result (λ yes. IsTrue yes ↔ HasLegalOrder self.new.from self.new.client self.new.server self.new.hand) }
        ensures same { self.new ≡ self.old }
    {
        self.meet_client()?;
        self.are_ordered()
    }
}
