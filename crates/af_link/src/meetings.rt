//! How the proxies of one track's block meet.
ghost use Rattle.std.specs.Prelude.{◌≡◌, ◌≢◌, ℕ, ◌+◌, true, false, None, List, [], length};
ghost use Rattle.af_base.specs.declared.event.HandEvent.{HandEvent};
ghost use Rattle.af_base.specs.declared.event.ServerEvent.TheVariants as server_event;
ghost use Rattle.af_model.specs.Discards.{DiscardsBefore};
ghost use Rattle.af_model.specs.History.{is_lawful, HasHistory};
ghost use Rattle.af_cblk.specs.Parts.{client_met, server_did, hand_met};
ghost use Rattle.af_cblk.specs.Rule.{StartsWith};
ghost use Rattle.af_cblk.specs.Sides.{client_made, hand_made};
ghost use Rattle.af_client.specs.Order.{IsClientOf};
ghost use Rattle.af_server.specs.Order.{IsServerOf};

use af_base::Steps;
use af_cblk::{Block, FlagHand};
use af_client::Client;
use af_server::Server;
use std::sync::ledger::Ledger;

/// The client and the server learn what the other has done so far: all of it stands before their own next events. It appends Learn to each list, in five steps, and both proxies stay in order.
///
/// If the client has not poked, their lists have a history, in which no look of this server was shut, with some hand's list, which is empty if the hand is with the server. On a positional block what a look discarded was released before the flush that it saw, and after it all that was released before that flush is taken or discarded.
pub fn meet_track<L: Ledger>(
    client: &mut Client,
    server: &mut Server,
    block: &Block,
    steps: &mut Steps<L>,
)
    requires ready { IsClientOf block.now client.old × IsServerOf block.now server.old }
    ensures ready { IsClientOf block.now client.new × IsServerOf block.now server.new }
    ensures client { client.new ≡ (record client.old { pass = record client.old.pass { part = client_met client.old.pass.part server.old.pass.part.events } }) }
    ensures server { server.new ≡ (record server.old { pass = record server.old.pass { part = server_did server.old.pass.part (server_event.Learn (length client.old.pass.part.events)) } }) }
    ensures history { is_lawful client.old.pass.part.events ≡ true
        → (hand : List HandEvent) × (server.old.pass.has_hand ≡ true → hand ≡ [])
        × HasHistory block.now.shape client.new.pass.part.events client.new.pass.part.frames server.new.pass.part.events server.new.pass.part.frames hand }
    ensures unshut { is_lawful client.old.pass.part.events ≡ true → server.new.shut ≡ None }
    ensures flushed { is_lawful client.old.pass.part.events ≡ true → block.now.shape.wrap ≢ 0
        → (hand : List HandEvent)
        × ((h : HasHistory block.now.shape client.new.pass.part.events client.new.pass.part.frames server.new.pass.part.events server.new.pass.part.frames hand) × DiscardsBefore block.now.shape h.order) }
    ensures steps { steps.new ≡ steps.old + 5 }
{
    server.meet(block, client.pass(), steps);
}

/// The hand learns what the client has done so far, while the server's proxy is elsewhere. It appends Met to the hand's list and nothing to the client's, in four steps.
///
/// From then on the hand knows the list that the server had at that moment. If the client has not poked, this list goes on from what the client had learnt, and has a history with theirs.
pub fn meet_flag<L: Ledger>(
    client: &mut Client,
    hand: &mut FlagHand,
    block: &Block,
    steps: &mut Steps<L>,
)
    requires made { (client_made client.old.pass ≡ block.now) × (hand_made hand.old ≡ block.now) }
    ensures client { client.new ≡ client.old }
    ensures made { hand_made hand.new ≡ block.now }
    ensures hand { hand.new.part ≡ hand_met hand.old.part (length client.old.pass.part.events) }
    ensures history { is_lawful client.old.pass.part.events ≡ true
        → (taken : List ℕ) × StartsWith hand.new.known client.old.pass.part.learnt
        × HasHistory block.now.shape client.old.pass.part.events client.old.pass.part.frames hand.new.known taken hand.new.part.events }
    ensures steps { steps.new ≡ steps.old + 4 }
{
    block.meet_flag(client.pass(), hand, steps);
}

/// The hand recalls what it knows of the server's list, beside the server's proxy: that list goes on from there, whatever the client has poked. It appends nothing, in four steps, and the proxy stays in order.
pub fn recall<L: Ledger>(
    server: &mut Server,
    hand: &mut FlagHand,
    block: &Block,
    steps: &mut Steps<L>,
)
    requires ready { IsServerOf block.now server.old × (hand_made hand.old ≡ block.now) }
    ensures ready { IsServerOf block.now server.new }
    ensures server { server.new ≡ (record server.old { pass = record server.old.pass { has_hand = false } }) }
    ensures hand { hand.new ≡ hand.old }
    ensures goes_on { StartsWith server.old.pass.part.events hand.old.known }
    ensures steps { steps.new ≡ steps.old + 4 }
{
    block.recall(server.pass(), hand, steps);
}

/// It appends what `meet_track` and then `meet_flag` append, in nine steps, and both proxies stay in order.
///
/// If the client has not poked, the three lists have a history, in which no look of this server was shut. On a positional block what a look discarded was released before the flush that it saw, and after it all that was released before that flush is taken or discarded.
pub fn meet_all<L: Ledger>(
    client: &mut Client,
    server: &mut Server,
    hand: &mut FlagHand,
    block: &Block,
    steps: &mut Steps<L>,
)
    requires ready { IsClientOf block.now client.old × IsServerOf block.now server.old × (hand_made hand.old ≡ block.now) }
    ensures ready { IsClientOf block.now client.new × IsServerOf block.now server.new × (hand_made hand.new ≡ block.now) }
    ensures client { client.new ≡ (record client.old { pass = record client.old.pass { part = client_met client.old.pass.part server.old.pass.part.events } }) }
    ensures server { server.new ≡ (record server.old { pass = record server.old.pass { part = server_did server.old.pass.part (server_event.Learn (length client.old.pass.part.events)); has_hand = false } }) }
    ensures hand { hand.new.part ≡ hand_met hand.old.part (length client.old.pass.part.events + 1) }
    ensures known { hand.new.known ≡ server.new.pass.part.events }
    ensures history { is_lawful client.old.pass.part.events ≡ true
        → HasHistory block.now.shape client.new.pass.part.events client.new.pass.part.frames server.new.pass.part.events server.new.pass.part.frames hand.new.part.events }
    ensures unshut { is_lawful client.old.pass.part.events ≡ true → server.new.shut ≡ None }
    ensures flushed { is_lawful client.old.pass.part.events ≡ true → block.now.shape.wrap ≢ 0
        → (h : HasHistory block.now.shape client.new.pass.part.events client.new.pass.part.frames server.new.pass.part.events server.new.pass.part.frames hand.new.part.events) × DiscardsBefore block.now.shape h.order }
    ensures steps { steps.new ≡ steps.old + 9 }
{
    block.meet_all(client.pass(), server.pass(), hand, steps);
}
