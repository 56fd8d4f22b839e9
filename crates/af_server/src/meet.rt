//! What a client and a server know of each other once they meet.
ghost use Rattle.std.specs.Prelude.{◌≡◌, ◌≢◌, ℕ, ◌+◌, true, None, List, [], length, take};
ghost use Rattle.af_base.specs.declared.event.HandEvent.{HandEvent};
ghost use Rattle.af_base.specs.declared.event.ServerEvent.TheVariants as server_event;
ghost use Rattle.af_model.specs.Discards.{DiscardsBefore};
ghost use Rattle.af_model.specs.Fates.{drops_none};
ghost use Rattle.af_model.specs.History.{is_lawful, HasHistory};
ghost use Rattle.af_model.specs.ClientCalls.{IsClientList};
ghost use Rattle.af_cblk.specs.Parts.{client_met, server_did};
ghost use Rattle.af_cblk.specs.Sides.{client_made};
ghost use Rattle.af_server.specs.Order.{IsServerOf};

use crate::server::Server;
use af_base::Steps;
use af_cblk::{Block, ClientPass};
use std::sync::ledger::Ledger;

impl Server {
    /// Meets the client of the same block, whose list is spelled by the calls of a proxy: each learns what the other has done so far.
    ///
    /// If the client has not poked, their lists have a history, in which no look of this server was shut, and if no frames were discarded, those taken are a beginning of those released. On a positional block what a look discarded was released before the flush that it saw, and after it all that was released before that flush is taken or discarded.
    pub fn meet<L: Ledger>(&mut self, block: &Block, client: &mut ClientPass, steps: &mut Steps<L>)
        requires client { client_made client.old ≡ block.now }
        requires ready { IsServerOf block.now self.old }
        requires spelled { let k = block.now.shape in IsClientList k.frames k.cells k.base client.old.part.events }
        ensures made { client_made client.new ≡ block.now }
        ensures ready { IsServerOf block.now self.new }
        ensures client { client.new.part ≡ client_met client.old.part self.old.pass.part.events }
        ensures server { self.new ≡ (record self.old { pass = record self.old.pass { part = server_did self.old.pass.part (server_event.Learn (length client.old.part.events)) } }) }
        ensures history { is_lawful client.old.part.events ≡ true
            → (hand : List HandEvent) × (self.old.pass.has_hand ≡ true → hand ≡ [])
            × HasHistory block.now.shape client.new.part.events client.new.part.frames self.new.pass.part.events self.new.pass.part.frames hand }
        ensures unshut { is_lawful client.old.part.events ≡ true → self.new.shut ≡ None }
        ensures flushed { is_lawful client.old.part.events ≡ true → block.now.shape.wrap ≢ 0
            → (hand : List HandEvent)
            × ((h : HasHistory block.now.shape client.new.part.events client.new.part.frames self.new.pass.part.events self.new.pass.part.frames hand) × DiscardsBefore block.now.shape h.order) }
        ensures begins { is_lawful client.old.part.events ≡ true → drops_none self.old.pass.part.events ≡ true
            → (n : ℕ) × (self.new.pass.part.frames ≡ take n client.new.part.frames) }
        ensures steps { steps.new ≡ steps.old + 5 }
    {
        block.meet(client, &mut self.pass, steps);
    }
}
