//! The search for a legal order of three lists of events, event by event.
ghost use Rattle.std.specs.Prelude.{◌≡◌, ◌+◌, ◌*◌, ◌<◌, ◌≤◌, ◌^◌, ◌↔◌, IfOk, IfSome, IsTrue, OnOk, All, Contains, Some, None, true, if◌then◌else◌, slice_get, drop, length};
ghost use Rattle.af_merges.specs.MergeSteps.{HasRoom};
ghost use Rattle.af_merges.specs.Walks.{IsNext, Adds, Spreads, HasSame};
ghost use Rattle.af_merges.specs.MergePieces.{names_at_least};
ghost use Rattle.af_merges.specs.Rising.{rises_from, first_names};
ghost use Rattle.af_merges.specs.Stages.{Client, Server, Hand, keeps_mets, known_by, move, eager, takes_met, is_met, begin, lists_of, IsWhole, InBounds, AreShortLists};

use crate::events::Events;
use crate::step::{after_client, after_hand, after_server};
use af_base::{ClientEvent, HandEvent, ServerEvent};
use af_model::TrackPoint;
use std::alloc::{AllocError, Global};

/// A stage in an order of three lists: the point, and how many events of each list have stood.
#[derive(Clone, Copy, Debug, PartialEq, Eq, PartialOrd, Ord)]
pub(crate) struct Stage {
    pub clients: usize,
    pub servers: usize,
    pub hands: usize,
    pub point: TrackPoint,
}

/// Whether each Met names no fewer client events than the Met before it.
pub(crate) fn rises(hand: &[HandEvent]) -> bool
    ensures { result ≡ rises_from 0 hand.now }
{
    let mut low = 0u64;
    for event in hand {
        if let HandEvent::Met { client } = *event {
            if client < low {
                return false;
            }
            low = client;
        }
    }
    true
}

/// Whether the first Met names at least so many client events.
fn first_names_each(hand: &[HandEvent], clients: usize) -> bool
    ensures { result ≡ first_names clients hand.now }
{
    for event in hand {
        if let HandEvent::Met { client } = *event {
            return client >= clients as u64;
        }
    }
    true
}

/// Whether each Met names at least so many client events. If they rise, the first one decides.
fn names_all(hand: &[HandEvent], clients: usize, rises: bool) -> bool
    requires { rises ≡ true → rises_from 0 hand.now ≡ true }
    ensures { result ≡ names_at_least clients hand.now }
{
    if rises {
        return first_names_each(hand, clients);
    }
    names_each(hand, clients)
}

pub(crate) fn names_each(hand: &[HandEvent], clients: usize) -> bool
    ensures { result ≡ names_at_least clients hand.now }
{
    for event in hand {
        if let HandEvent::Met { client } = *event {
            if client < clients as u64 {
                return false;
            }
        }
    }
    true
}

pub(crate) fn is_known(event: Option<HandEvent>, clients: usize) -> bool
    ensures { result ≡ known_by clients event }
{
    match event {
        Some(HandEvent::SetFlags { .. }) => true,
        Some(HandEvent::Met { client }) => client <= clients as u64,
        None => true,
    }
}

pub(crate) fn event_at(hand: &[HandEvent], place: usize) -> Option<HandEvent>
    ensures { result ≡ slice_get hand.now place }
{
    hand.get(place).copied()
}

pub(crate) fn later(hand: &[HandEvent], place: usize) -> &[HandEvent]
    requires { place ≤ length hand.now }
    ensures { result.now ≡ drop place hand.now }
{
    let (_, later) = hand.split_at(place);
    later
}

/// Whether each Met is kept with one client event more. Only the events past the hand's next one can forbid it.
pub(crate) fn keeps_client(hand: &[HandEvent], clients: usize, hands: usize, rises: bool) -> bool
    requires told { rises ≡ true → rises_from 0 hand.now ≡ true }
    requires kept { keeps_mets hand.now 0 clients hands ≡ true }
    requires fits { clients + 1 < 2 ^ 64 }
    ensures { result ≡ keeps_mets hand.now 0 (clients + 1) hands }
{
    if hands >= hand.len() {
        return true;
    }
    names_all(later(hand, hands + 1), clients + 1, rises)
}

/// Whether each Met is kept with one event of the hand more. Only its last event can forbid it.
pub(crate) fn keeps_hand(hand: &[HandEvent], clients: usize, hands: usize) -> bool
    requires { keeps_mets hand.now 0 clients hands ≡ true }
    ensures { result ≡ keeps_mets hand.now 0 clients (hands + 1) }
{
    if hands == 0 {
        return true;
    }
    is_known(event_at(hand, hands - 1), clients)
}

pub(crate) fn when(kept: bool, stage: Stage) -> Option<Stage>
    ensures value { result ≡ (if kept then Some stage else None) }
    ensures same { IfSome result (λ m. (m ≡ stage) × (kept ≡ true)) }
{
    if kept { Some(stage) } else { None }
}

pub(crate) fn client_move(events: &Events<'_>, stage: &Stage) -> Option<Stage>
    requires short { AreShortLists (lists_of events.now) }
    requires bounds { InBounds (lists_of events.now) stage.now }
    ensures value { result ≡ move (lists_of events.now) Client stage.now }
    ensures bounds { IfSome result (InBounds (lists_of events.now)) }
{
    let event = events.client.get(stage.clients)?;
    let point = after_client(&stage.point, stage.servers as u64, event)?;
    when(
        keeps_client(events.hand, stage.clients, stage.hands, events.rises),
        Stage {
            point,
            clients: stage.clients + 1,
            ..*stage
        },
    )
}

pub(crate) fn server_move(events: &Events<'_>, stage: &Stage) -> Option<Stage>
    requires short { AreShortLists (lists_of events.now) }
    requires bounds { InBounds (lists_of events.now) stage.now }
    ensures value { result ≡ move (lists_of events.now) Server stage.now }
    ensures bounds { IfSome result (InBounds (lists_of events.now)) }
{
    let event = events.server.get(stage.servers)?;
    let point = after_server(&stage.point, stage.clients as u64, event)?;
    Some(Stage {
        point,
        servers: stage.servers + 1,
        ..*stage
    })
}

pub(crate) fn hand_move(events: &Events<'_>, stage: &Stage) -> Option<Stage>
    requires short { AreShortLists (lists_of events.now) }
    requires bounds { InBounds (lists_of events.now) stage.now }
    ensures value { result ≡ move (lists_of events.now) Hand stage.now }
    ensures bounds { IfSome result (InBounds (lists_of events.now)) }
{
    let event = events.hand.get(stage.hands)?;
    when(
        keeps_hand(events.hand, stage.clients, stage.hands),
        Stage {
            point: after_hand(&stage.point, event),
            hands: stage.hands + 1,
            ..*stage
        },
    )
}

pub(crate) fn add(found: &mut Vec<Stage>, stage: Option<Stage>) -> Result<(), AllocError>
    ensures { OnOk result (Adds found.old.items stage found.new.items) }
{
    let Some(stage) = stage else {
        return Ok(());
    };
    found.push(stage)?;
    Ok(())
}

/// Leaves one of those that are equal. So a level costs what its different stages cost.
pub(crate) fn leave_one_of_each(stages: &mut Vec<Stage>)
    ensures { HasSame stages.old.items stages.new.items }
{
    stages.sort_unstable();
    stages.dedup();
}

/// Whether the hand's next event is a Met that may stand here.
pub(crate) fn met_is_next(events: &Events<'_>, stage: &Stage) -> bool
    requires bounds { InBounds (lists_of events.now) stage.now }
    requires short { AreShortLists (lists_of events.now) }
    ensures { result ≡ takes_met (lists_of events.now).hand stage.now }
{
    match events.hand.get(stage.hands) {
        Some(event) => {
            is_met_event(event) && keeps_hand(events.hand, stage.clients, stage.hands)
        }
        None => false,
    }
}

fn is_met_event(event: &HandEvent) -> bool
    ensures { result ≡ is_met (Some event.now) }
{
    match *event {
        HandEvent::SetFlags { .. } => false,
        HandEvent::Met { .. } => true,
    }
}

fn eager_client(events: &Events<'_>, stage: &Stage, met: bool) -> Option<Stage>
    requires short { AreShortLists (lists_of events.now) }
    requires bounds { InBounds (lists_of events.now) stage.now }
    requires met { met ≡ takes_met (lists_of events.now).hand stage.now }
    ensures value { result ≡ eager (lists_of events.now) Client stage.now }
    ensures bounds { IfSome result (InBounds (lists_of events.now)) }
{
    if met {
        return None;
    }
    client_move(events, stage)
}

fn eager_server(events: &Events<'_>, stage: &Stage, met: bool) -> Option<Stage>
    requires short { AreShortLists (lists_of events.now) }
    requires bounds { InBounds (lists_of events.now) stage.now }
    requires met { met ≡ takes_met (lists_of events.now).hand stage.now }
    ensures value { result ≡ eager (lists_of events.now) Server stage.now }
    ensures bounds { IfSome result (InBounds (lists_of events.now)) }
{
    if met {
        return None;
    }
    server_move(events, stage)
}

fn eager_hand(events: &Events<'_>, stage: &Stage, met: bool) -> Option<Stage>
    requires short { AreShortLists (lists_of events.now) }
    requires bounds { InBounds (lists_of events.now) stage.now }
    requires met { met ≡ takes_met (lists_of events.now).hand stage.now }
    ensures value { result ≡ eager (lists_of events.now) Hand stage.now }
    ensures bounds { IfSome result (InBounds (lists_of events.now)) }
{
    let _met = met;
    hand_move(events, stage)
}

/// Adds each stage that one more event after this stage leads to.
fn spread(events: &Events<'_>, stage: &Stage, found: &mut Vec<Stage>) -> Result<(), AllocError>
    requires short { AreShortLists (lists_of events.now) }
    requires bounds { InBounds (lists_of events.now) stage.now }
    ensures spreads { OnOk result (Spreads (eager (lists_of events.now)) stage.now found.old.items found.new.items) }
    ensures bounds { OnOk result (All (InBounds (lists_of events.now)) found.old.items → All (InBounds (lists_of events.now)) found.new.items) }
{
    let met = met_is_next(events, stage);
    add(found, eager_client(events, stage, met))?;
    add(found, eager_server(events, stage, met))?;
    add(found, eager_hand(events, stage, met))?;
    Ok(())
}

/// The stages one more event after these.
pub(crate) fn advance(
    alloc: Global,
    events: &Events<'_>,
    now: &[Stage],
) -> Result<Vec<Stage>, AllocError>
    requires short { AreShortLists (lists_of events.now) }
    requires bounds { All (InBounds (lists_of events.now)) now.now }
    ensures next { IfOk result (λ next. IsNext (eager (lists_of events.now)) now.now next.items) }
    ensures bounds { IfOk result (λ next. All (InBounds (lists_of events.now)) next.items) }
{
    let mut next = Vec::new(alloc);
    for stage in now {
        spread(events, stage, &mut next)?;
    }
    Ok(next)
}

/// Whether all events of the lists have stood.
pub(crate) fn is_whole(events: &Events<'_>, stage: &Stage) -> bool
    ensures { IsTrue result ↔ IsWhole (lists_of events.now) stage.now }
{
    stage.clients == events.client.len()
        && stage.servers == events.server.len()
        && stage.hands == events.hand.len()
}

pub(crate) fn has_whole(events: &Events<'_>, now: &[Stage]) -> bool
    ensures { IsTrue result ↔ ((m : Stage) × Contains now.now m × IsWhole (lists_of events.now) m) }
{
    for stage in now {
        if is_whole(events, stage) {
            return true;
        }
    }
    false
}

/// One of these stages after which all events have stood, if there is one.
pub(crate) fn whole_of(events: &Events<'_>, now: &[Stage]) -> Option<Stage>
    ensures { IfSome result (Contains now.now) }
{
    for stage in now {
        if is_whole(events, stage) {
            return Some(*stage);
        }
    }
    None
}
