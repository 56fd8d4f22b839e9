//! A pipe, its two ends, and how they meet.
ghost use Rattle.std.specs.Prelude.{◌≡◌, ◌+◌, ◌≤◌, IfOk, length};
ghost use Rattle.af_base.specs.declared.event.ServerEvent.TheVariants as server_event;
ghost use Rattle.af_model.specs.PipeHistory.{HasPipeHistory};
ghost use Rattle.af_cblk.specs.Parts.{client_met, server_did};
ghost use Rattle.af_cblk.specs.Rule.{new_client, new_server};
ghost use Rattle.af_cblk.specs.Shape.{IsShape};
ghost use Rattle.af_link.specs.PipeEnds.{in_made, out_made, SeesTaken};

use af_base::{Memory, Steps};
use af_cblk::{Block, ClientPass, ServerPass};
use std::alloc::Global;
use std::marker::Model;
use std::sync::ledger::Ledger;

/// The end of a pipe into which frames are put: AOSP's `MonoPipe`, of which the normal mixer is the writer.
///
/// Contracts see its pass, with the list of all events and frames so far, and the room that is left by the front last seen. An end puts frames, looks at front and meets, and does nothing else on the block.
#[derive(Drop)]
pub struct PipeIn {
    pub(crate) pass: ClientPass,
    // The word of the number of frames put.
    pub(crate) rear: u32,
    pub(crate) room: u32,
}

impl Model for PipeIn {
    ghost use Rattle.af_link.specs.PipeEnds.{InSide, IsPutting};

    ghost Value = { InSide };

    ghost view = { λ p. record { pass = p.pass; room = p.room } };

    ghost invariant = { λ p. IsPutting p.pass.part p.rear p.room };
}

/// The end of a pipe from which frames are taken: AOSP's `MonoPipeReader`, which the fast mixer has in its slot 0.
///
/// Contracts see its pass, with the list of all events and frames so far, the rear and front last seen, and how many frames the last look shows and nothing took since. An end looks, takes frames and meets, and does nothing else on the block.
#[derive(Drop)]
pub struct PipeOut {
    pub(crate) pass: ServerPass,
    // The front last seen or stored, and the rear last seen.
    pub(crate) front: u32,
    pub(crate) rear: u32,
    pub(crate) shown: u32,
}

impl Model for PipeOut {
    ghost use Rattle.std.specs.Prelude.{◌≡◌, true};
    ghost use Rattle.af_link.specs.PipeEnds.{OutSide, IsTaking};

    ghost Value = { OutSide };

    ghost view = { λ p. record { pass = p.pass; shown = p.shown } };

    ghost invariant = { λ p. (p.pass.has_hand ≡ true) × IsTaking p.pass.part p.front p.rear p.shown };
}

/// An empty pipe for `frames` frames, from 1 to 65,536, and its two ends. Each begins with no events. Memory is its only refusal.
pub fn pipe(alloc: Global, frames: u32) -> Result<(Block, PipeIn, PipeOut), Memory>
    requires some { 1 ≤ frames }
    requires few { frames ≤ 65536 }
    ensures size { IfOk result (λ r. (r.0.shape.frames ≡ frames) × (r.0.shape.base ≡ 0) × (r.0.shape.wrap ≡ 0) × IsShape r.0.shape) }
    ensures made { IfOk result (λ r. (in_made r.1 ≡ r.0) × (out_made r.2 ≡ r.0)) }
    ensures puts { IfOk result (λ r. (r.1.pass.part ≡ new_client r.0.shape) × (r.1.room ≡ frames)) }
    ensures takes { IfOk result (λ r. (r.2.pass.part ≡ new_server r.0.shape) × (r.2.shown ≡ 0)) }
{
    let (block, client, server) = Block::make(alloc, frames, 0)?;
    let puts = PipeIn {
        pass: client,
        rear: 0,
        room: frames,
    };
    let takes = PipeOut {
        pass: server,
        front: 0,
        rear: 0,
        shown: 0,
    };
    Ok((block, puts, takes))
}

/// Each end learns what the other has done so far: all of it stands before its own next event. It appends Learn to each list, in five steps.
///
/// Whatever the order in which their steps came, the two ends' lists have a history of the pipe: the frames taken are a beginning of those put, and what a look shows is what was put and not taken at its place.
pub fn meet_pipe<L: Ledger>(
    block: &Block,
    from: &mut PipeIn,
    to: &mut PipeOut,
    steps: &mut Steps<L>,
)
    requires from { in_made from.old ≡ block.now }
    requires to { out_made to.old ≡ block.now }
    ensures made { (in_made from.new ≡ block.now) × (out_made to.new ≡ block.now) }
    ensures from { from.new ≡ (record from.old { pass = record from.old.pass { part = client_met from.old.pass.part to.old.pass.part.events } }) }
    ensures to { to.new ≡ (record to.old { pass = record to.old.pass { part = server_did to.old.pass.part (server_event.Learn (length from.old.pass.part.events)) } }) }
    ensures history { HasPipeHistory block.now.shape.frames from.new.pass.part.events from.new.pass.part.frames to.new.pass.part.events to.new.pass.part.frames }
    ensures fronts { SeesTaken 0 to.new.pass.part.events }
    ensures steps { steps.new ≡ steps.old + 5 }
{
    block.meet(&mut from.pass, &mut to.pass, steps);
}
