//! The two ends of a recording, how they are made, and how they meet.
ghost use Rattle.std.specs.Prelude.{◌≡◌, ℕ, ◌+◌, ◌≤◌, IfOk, List, [], length};
ghost use Rattle.af_base.specs.declared.event.ServerEvent.TheVariants as server_event;
ghost use Rattle.af_cblk.specs.Parts.{client_met, server_did};
ghost use Rattle.af_cblk.specs.Rule.{new_client, new_server};
ghost use Rattle.af_cblk.specs.Shape.{IsShape};
ghost use Rattle.af_record.specs.Supplies.{Supply, IsCaptureHistory};
ghost use Rattle.af_record.specs.History.{HasTapeHistory};
ghost use Rattle.af_record.specs.Ends.{capture_made, listener_made, CameBy, IsCalm, ReadBy, SeesPut, SeesRoom, SeesTaken};

use af_base::{Memory, Steps};
use af_cblk::Block;
use af_client::Client;
use af_link::meet_track;
use af_server::Server;
use std::alloc::Global;
use std::marker::Model;
use std::sync::ledger::Ledger;

/// The end of a recording that supplies frames, a client's proxy inside. It puts what there is room for, loses the rest, and waits for nobody.
///
/// Contracts see its pass, with the list of all events and of the frames put so far, how many frames it was supplied with, and how many of those were lost. It writes and meets, and does nothing else on the block.
#[derive(Drop)]
pub struct Capture {
    pub(crate) client: Client,
    pub(crate) supplied: u64,
    pub(crate) lost: u64,
}

impl Model for Capture {
    ghost use Rattle.af_record.specs.Ends.{CaptureState, IsSupplying};

    ghost Value = { CaptureState };

    ghost view = { λ c. record { pass = c.client.pass; supplied = c.supplied; overrun = c.lost } };

    ghost invariant = { λ c. IsSupplying c.client c.supplied c.lost };
}

/// The end of a recording from which frames are read, a server's proxy inside.
///
/// Contracts see its pass, with the list of all events and of the frames read so far, and how many those are. It looks, takes and meets, and does nothing else on the block.
#[derive(Drop)]
pub struct Listener {
    pub(crate) server: Server,
    pub(crate) total: u64,
}

impl Model for Listener {
    ghost use Rattle.af_record.specs.Ends.{ListenerState, IsListening};

    ghost Value = { ListenerState };

    ghost view = { λ l. record { pass = l.server.pass; total = l.total } };

    ghost invariant = { λ l. IsListening l.server l.total };
}

/// An empty recording for `frames` frames, from 1 to 8192, and its two ends. Each begins with no events. Memory is its only refusal.
pub fn make(alloc: Global, frames: u32) -> Result<(Block, Capture, Listener), Memory>
    requires some { 1 ≤ frames }
    requires few { frames ≤ 8192 }
    ensures size { IfOk result (λ r. (r.0.shape.frames ≡ frames) × (r.0.shape.base ≡ 0) × IsShape r.0.shape) }
    ensures made { IfOk result (λ r. (capture_made r.1 ≡ r.0) × (listener_made r.2 ≡ r.0)) }
    ensures parts { IfOk result (λ r. (r.1.pass.part ≡ new_client r.0.shape) × (r.2.pass.part ≡ new_server r.0.shape)) }
    ensures history { IfOk result (λ r. CameBy [] r.1 × ReadBy [] r.2) }
{
    let (block, client, server) = Block::make(alloc, frames, 0)?;
    let capture = Capture {
        client: Client::with(client, &block),
        supplied: 0,
        lost: 0,
    };
    let listener = Listener {
        server: Server::with(server, &block),
        total: 0,
    };
    Ok((block, capture, listener))
}

/// Each end learns what the other has done so far: all of it stands before its own next event. It appends Learn to each list, in five steps.
///
/// Whatever the order in which their steps came, the frames read are a beginning of those put: each supplied frame was read once in its order, is still queued, or was lost and counted. Each rear that a read saw is the number of frames put by then, no fewer than were put before a meeting that stands before it. Each front that an end saw is the number of frames read by then, and the room by it is what these leave. No flags seen had INVALID, no flush was seen, nothing was dropped, and neither end was shut.
pub fn meet_record<L: Ledger>(
    block: &Block,
    from: &mut Capture,
    to: &mut Listener,
    steps: &mut Steps<L>,
)
    requires from { capture_made from.old ≡ block.now }
    requires to { listener_made to.old ≡ block.now }
    ensures made { (capture_made from.new ≡ block.now) × (listener_made to.new ≡ block.now) }
    ensures from { from.new ≡ (record from.old { pass = record from.old.pass { part = client_met from.old.pass.part to.old.pass.part.events } }) }
    ensures to { to.new ≡ (record to.old { pass = record to.old.pass { part = server_did to.old.pass.part (server_event.Learn (length from.old.pass.part.events)) } }) }
    ensures order { HasTapeHistory block.now.shape.frames from.new.pass.part.events from.new.pass.part.frames to.new.pass.part.events to.new.pass.part.frames }
    ensures history { (supplies : List Supply) (reads : List (List ℕ)) → CameBy supplies from.new → ReadBy reads to.new → IsCaptureHistory supplies reads }
    ensures calm { IsCalm from.new.pass.part.events to.new.pass.part }
    ensures rears { SeesPut from.new.pass.part.events 0 to.new.pass.part.events }
    ensures fronts { SeesTaken 0 to.new.pass.part.events }
    ensures rooms { SeesRoom block.now.shape.frames to.new.pass.part.events 0 0 from.new.pass.part.events }
    ensures steps { steps.new ≡ steps.old + 5 }
{
    meet_track(&mut from.client, &mut to.server, block, steps);
}
