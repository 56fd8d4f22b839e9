//! One order of three lists, tried event by event: where it leads through all of them, nothing need be searched.
ghost use Rattle.std.specs.Prelude.{◌≤◌, IfSome, length};
ghost use Rattle.af_merges.specs.Stages.{lists_of, IsWhole, InBounds, AreShortLists};
ghost use Rattle.af_merges.specs.MergeSteps.{HasRoom};
ghost use Rattle.af_merges.specs.OneOrder.{IsNextOf, LeadsTo};

use crate::events::Events;
use crate::search::{
    Stage, client_move, hand_move, is_whole, keeps_client, met_is_next, server_move, when,
};
use crate::step::{after_client, may_look};
use af_base::{ClientEvent, ServerEvent};
use af_model::TrackPoint;

// Which event comes first is chosen so that an order is mostly found. Whatever is chosen, what is found is an order.

/// Whether a server's event changes nothing that a client sees.
fn is_hidden(event: &ServerEvent) -> bool {
    match *event {
        ServerEvent::SawGain { .. }
        | ServerEvent::SawFlush { .. }
        | ServerEvent::SawRear { .. }
        | ServerEvent::SawFront { .. }
        | ServerEvent::Tally { .. }
        | ServerEvent::Learn { .. } => true,
        ServerEvent::Drop { .. }
        | ServerEvent::Take { .. }
        | ServerEvent::SetFlags { .. }
        | ServerEvent::SetStatus { .. } => false,
    }
}

/// A look of the client, if that is its next event. It changes no point.
fn if_client_looks(events: &Events<'_>, stage: &Stage) -> Option<Stage>
    requires short { AreShortLists (lists_of events.now) }
    requires bounds { InBounds (lists_of events.now) stage.now }
    ensures next { IfSome result (IsNextOf (lists_of events.now) stage.now) }
    ensures bounds { IfSome result (InBounds (lists_of events.now)) }
{
    let event = events.client.get(stage.clients)?;
    if !may_look(&stage.point, stage.servers as u64, event) {
        return None;
    }
    when(
        keeps_client(events.hand, stage.clients, stage.hands, events.rises),
        Stage {
            clients: stage.clients + 1,
            ..*stage
        },
    )
}

#[tactic(auto, using(crate::proofs::OneOrder::is_next))]
fn if_server_hides(events: &Events<'_>, stage: &Stage) -> Option<Stage>
    requires short { AreShortLists (lists_of events.now) }
    requires bounds { InBounds (lists_of events.now) stage.now }
    ensures next { IfSome result (IsNextOf (lists_of events.now) stage.now) }
    ensures bounds { IfSome result (InBounds (lists_of events.now)) }
{
    let event = events.server.get(stage.servers)?;
    if is_hidden(event) {
        server_move(events, stage)
    } else {
        None
    }
}

/// A step that the other party can't see, if there is one.
#[tactic(auto, using(crate::proofs::OneOrder::is_next))]
fn step_unseen(events: &Events<'_>, stage: &Stage) -> Option<Stage>
    requires short { AreShortLists (lists_of events.now) }
    requires bounds { InBounds (lists_of events.now) stage.now }
    ensures next { IfSome result (IsNextOf (lists_of events.now) stage.now) }
    ensures bounds { IfSome result (InBounds (lists_of events.now)) }
{
    if met_is_next(events, stage) {
        return hand_move(events, stage);
    }
    match if_client_looks(events, stage) {
        Some(next) => Some(next),
        None => if_server_hides(events, stage),
    }
}

/// Whether the client sees at the one point what it would not see at the other.
fn is_awaited(client: &[ClientEvent], servers: usize, now: &TrackPoint, later: &TrackPoint) -> bool
    requires now { HasRoom now.now }
    requires later { HasRoom later.now }
{
    for event in client {
        if after_client(now, servers as u64, event).is_none() {
            return false;
        }
        if after_client(later, servers as u64, event).is_none() {
            return true;
        }
    }
    false
}

/// The server's step, if the client sees nothing before it that it would not see after it.
#[tactic(auto, using(crate::proofs::OneOrder::is_next))]
fn if_server_may(events: &Events<'_>, stage: &Stage) -> Option<Stage>
    requires short { AreShortLists (lists_of events.now) }
    requires bounds { InBounds (lists_of events.now) stage.now }
    ensures next { IfSome result (IsNextOf (lists_of events.now) stage.now) }
    ensures bounds { IfSome result (InBounds (lists_of events.now)) }
{
    let next = server_move(events, stage)?;
    let (_, client) = events.client.split_at(stage.clients);
    if is_awaited(client, stage.servers, &stage.point, &next.point) {
        None
    } else {
        Some(next)
    }
}

/// A step that another party may see.
#[tactic(auto, using(crate::proofs::OneOrder::is_next))]
fn step_seen(events: &Events<'_>, stage: &Stage) -> Option<Stage>
    requires short { AreShortLists (lists_of events.now) }
    requires bounds { InBounds (lists_of events.now) stage.now }
    ensures next { IfSome result (IsNextOf (lists_of events.now) stage.now) }
    ensures bounds { IfSome result (InBounds (lists_of events.now)) }
{
    if let Some(next) = if_server_may(events, stage) {
        return Some(next);
    }
    if let Some(next) = client_move(events, stage) {
        return Some(next);
    }
    hand_move(events, stage)
}

/// One event more, if one is legal.
fn step(events: &Events<'_>, stage: &Stage) -> Option<Stage>
    requires short { AreShortLists (lists_of events.now) }
    requires bounds { InBounds (lists_of events.now) stage.now }
    ensures next { IfSome result (IsNextOf (lists_of events.now) stage.now) }
    ensures bounds { IfSome result (InBounds (lists_of events.now)) }
{
    match step_unseen(events, stage) {
        Some(next) => Some(next),
        None => step_seen(events, stage),
    }
}

/// The stage after all events, if the order that is tried leads there.
pub(crate) fn end_of_one_order(events: &Events<'_>, from: &Stage) -> Option<Stage>
    requires short { AreShortLists (lists_of events.now) }
    requires bounds { InBounds (lists_of events.now) from.now }
    ensures way { IfSome result (LeadsTo (lists_of events.now) from.now) }
    ensures bounds { IfSome result (InBounds (lists_of events.now)) }
    ensures whole { IfSome result (IsWhole (lists_of events.now)) }
{
    let all = events.client.len() + events.server.len() + events.hand.len();
    let first = from.clients + from.servers + from.hands;
    let mut stage = *from;
    for _event in first..all {
        match step(events, &stage) {
            Some(next) => stage = next,
            None => return None,
        }
    }
    if is_whole(events, &stage) {
        Some(stage)
    } else {
        None
    }
}
