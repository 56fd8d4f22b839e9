//! The search for an order of lists that come piece by piece.
ghost use Rattle.std.specs.Prelude.{◌≡◌, ◌∷◌, [], ◌+◌, ◌*◌, ◌<◌, ◌≤◌, ◌^◌, ◌↔◌, IfOk, IfSome, IsTrue, List, Some, None, OnOk, OnErr, All, Contains, false, ◌==◌, ◌&&◌, length, true, if◌then◌else◌};
ghost use Rattle.af_merges.specs.Walks.{IsLevel, IsFoundBelow, IsReached, Collects};
ghost use Rattle.af_merges.specs.Stages.{keeps_mets, move, eager, begin, lists_of, IsWhole, InBounds, AreShortLists, HasWalk, HasCount, count, total};
ghost use Rattle.af_merges.specs.MergePieces.{knows_no_more, is_open, IsOpen, joined};
ghost use Rattle.af_merges.specs.MergeSearch.{Knows, MayStart, IsOnAnOrder, SameLists, SameSearched, GoOn, lists_in};
ghost use Rattle.af_merges.specs.Merges.{IsStart};

use crate::events::Events;
use crate::one_order::end_of_one_order;
use crate::search::{
    Stage, add, advance, event_at, has_whole, is_known, later, leave_one_of_each, names_each,
    rises, whole_of,
};
use af_base::{ClientEvent, HandEvent, ServerEvent};
use af_model::TrackPoint;
use std::alloc::{AllocError, Global};

/// If the hand's list is used up, only its last event can forbid another.
fn knows_each(hand: &[HandEvent], clients: usize) -> bool
    requires { keeps_mets hand.now 0 clients (length hand.now) ≡ true }
    ensures { result ≡ knows_no_more hand.now clients }
{
    if hand.is_empty() {
        return true;
    }
    is_known(event_at(hand, hand.len() - 1), clients)
}

fn hand_goes_on(events: &Events<'_>, stage: &Stage) -> bool
    requires { InBounds (lists_of events.now) stage.now }
    ensures { result ≡ (stage.now.hands == length (lists_of events.now).hand && knows_no_more (lists_of events.now).hand stage.now.clients) }
{
    if stage.hands != events.hand.len() {
        return false;
    }
    knows_each(events.hand, stage.clients)
}

fn may_go_on(events: &Events<'_>, stage: &Stage) -> bool
    requires { InBounds (lists_of events.now) stage.now }
    ensures { result ≡ is_open (lists_of events.now) stage.now }
{
    stage.clients == events.client.len()
        || stage.servers == events.server.len()
        || hand_goes_on(events, stage)
}

fn if_open(events: &Events<'_>, stage: &Stage) -> Option<Stage>
    requires { InBounds (lists_of events.now) stage.now }
    ensures { result ≡ (if is_open (lists_of events.now) stage.now then Some stage.now else None) }
{
    if may_go_on(events, stage) {
        Some(*stage)
    } else {
        None
    }
}

/// Adds each open stage of these.
fn collect(events: &Events<'_>, now: &[Stage], found: &mut Vec<Stage>) -> Result<(), AllocError>
    requires { All (InBounds (lists_of events.now)) now.now }
    ensures { OnOk result (Collects (IsOpen (lists_of events.now)) now.now found.old.items found.new.items) }
{
    for stage in now {
        add(found, if_open(events, stage))?;
    }
    Ok(())
}

fn count_of(events: &Events<'_>, stage: &Stage) -> usize
    requires short { AreShortLists (lists_of events.now) }
    requires bounds { InBounds (lists_of events.now) stage.now }
    ensures { result ≡ count stage.now }
{
    let _ = events;
    stage.clients + stage.servers + stage.hands
}

/// The least count of these stages.
fn least_count(events: &Events<'_>, starts: &[Stage]) -> usize
    requires short { AreShortLists (lists_of events.now) }
    requires bounds { All (InBounds (lists_of events.now)) starts.now }
    ensures least { All (λ s. result ≤ count s) starts.now }
    ensures short { result ≤ total (lists_of events.now) }
{
    let mut least = events.client.len() + events.server.len() + events.hand.len();
    for stage in starts {
        least = least.min(count_of(events, stage));
    }
    least
}

fn if_counts(events: &Events<'_>, stage: &Stage, number: usize) -> Option<Stage>
    requires short { AreShortLists (lists_of events.now) }
    requires bounds { InBounds (lists_of events.now) stage.now }
    ensures { result ≡ (if count stage.now == number then Some stage.now else None) }
{
    if count_of(events, stage) == number {
        Some(*stage)
    } else {
        None
    }
}

/// Adds each of these stages that has that count.
fn join(
    events: &Events<'_>,
    starts: &[Stage],
    number: usize,
    now: &mut Vec<Stage>,
) -> Result<(), AllocError>
    requires short { AreShortLists (lists_of events.now) }
    requires bounds { All (InBounds (lists_of events.now)) starts.now }
    ensures { OnOk result (Collects (HasCount number) starts.now now.old.items now.new.items) }
{
    for stage in starts {
        add(now, if_counts(events, stage, number))?;
    }
    Ok(())
}

/// The open stages that some stages lead to, count by count.
fn settle(alloc: Global, events: &Events<'_>, starts: &[Stage]) -> Result<Vec<Stage>, AllocError>
    requires short { AreShortLists (lists_of events.now) }
    requires bounds { All (InBounds (lists_of events.now)) starts.now }
    ensures reached { IfOk result (λ found. IsReached (eager (lists_of events.now)) (IsOpen (lists_of events.now)) starts.now found.items) }
    ensures bounds { IfOk result (λ found. All (InBounds (lists_of events.now)) found.items) }
{
    let first = least_count(events, starts);
    let all = events.client.len() + events.server.len() + events.hand.len();
    let mut found = Vec::new(alloc);
    let mut now = Vec::new(alloc);
    join(events, starts, first, &mut now)?;
    for level in first..all + 1 {
        collect(events, &now, &mut found)?;
        now = advance(alloc, events, &now)?;
        join(events, starts, level + 1, &mut now)?;
        leave_one_of_each(&mut now);
    }
    Ok(found)
}

/// The stage before all events.
fn first_stage(from: &TrackPoint) -> Stage
    ensures { result ≡ begin from.now }
{
    Stage {
        point: *from,
        clients: 0,
        servers: 0,
        hands: 0,
    }
}

/// Whether some order of the three lists is legal from that point.
pub(crate) fn has_order(
    alloc: Global,
    events: &Events<'_>,
    from: &TrackPoint,
) -> Result<bool, AllocError>
    requires short { AreShortLists (lists_of events.now) }
    requires from { IsStart from.now }
    ensures { IfOk result (λ yes. IsTrue yes ↔ HasWalk (lists_of events.now) from.now) }
{
    let begin = first_stage(from);
    let found = settle(alloc, events, &[begin])?;
    Ok(has_whole(events, &found))
}

/// The lists so far; once `known`, the open stages of orders of so many of their first events; and a stage at the end of one order of them all, if one was found.
#[derive(Drop)]
pub(crate) struct Search {
    pub from: TrackPoint,
    pub client: Vec<ClientEvent>,
    pub server: Vec<ServerEvent>,
    pub hand: Vec<HandEvent>,
    pub open: Vec<Stage>,
    pub known: bool,
    pub clients: usize,
    pub servers: usize,
    pub hands: usize,
    pub end: Option<Stage>,
}

/// A search of no events.
pub(crate) fn new_search(alloc: Global, from: &TrackPoint) -> Search
    requires { IsStart from.now }
    ensures from { result.from ≡ from.now }
    ensures client { result.client.items ≡ [] }
    ensures server { result.server.items ≡ [] }
    ensures hand { result.hand.items ≡ [] }
    ensures knows { Knows result }
{
    Search {
        from: *from,
        client: Vec::new(alloc),
        server: Vec::new(alloc),
        hand: Vec::new(alloc),
        open: Vec::new(alloc),
        known: false,
        clients: 0,
        servers: 0,
        hands: 0,
        end: Some(first_stage(from)),
    }
}

/// Where the search begins: at the open stages, or afresh if a Met of the events that came later reaches back.
fn starts(alloc: Global, search: &mut Search) -> Result<Vec<Stage>, AllocError>
    requires from { IsStart search.old.from }
    requires knows { Knows search.old }
    ensures starts { IfOk result (λ starts. MayStart search.old starts.items) }
    ensures same { SameLists search.old search.new }
{
    if search.known && names_each(later(&search.hand, search.hands), search.clients) {
        search.known = false;
        return Ok(std::mem::replace(&mut search.open, Vec::new(alloc)));
    }
    search.known = false;
    let mut starts = Vec::new(alloc);
    starts.push(first_stage(&search.from))?;
    Ok(starts)
}

/// The end of the order that was found, if it stays one when these events of the hand come.
fn end_of_old(search: &mut Search, hand: &[HandEvent]) -> Option<Stage>
    requires { Knows search.old }
    ensures end { IfSome result (λ m. (cs : List ClientEvent) → (ss : List ServerEvent) → IsOnAnOrder (joined (lists_in search.old) cs ss hand.now) search.old.from m) }
    ensures same { SameLists search.old search.new }
    ensures searched { SameSearched search.old search.new }
    ensures none { search.new.end ≡ None }
{
    let end = search.end;
    search.end = None;
    if names_each(hand, search.client.len()) {
        end
    } else {
        None
    }
}

/// Adds a piece to each list. An `Err` may leave some of them added.
fn append(
    search: &mut Search,
    client: &[ClientEvent],
    server: &[ServerEvent],
    hand: &[HandEvent],
) -> Result<(), AllocError>
    ensures lists { OnOk result (lists_in search.new ≡ joined (lists_in search.old) client.now server.now hand.now) }
    ensures front { GoOn (lists_in search.old) (lists_in search.new) }
    ensures searched { SameSearched search.old search.new }
    ensures end { search.new.end ≡ search.old.end }
{
    search.client.extend_from_slice(client)?;
    search.server.extend_from_slice(server)?;
    search.hand.extend_from_slice(hand)?;
    Ok(())
}

/// The end of an order of all events that goes on from this stage, if the one that is tried is one.
fn end_from(search: &Search, stage: &Stage) -> Option<Stage>
    requires short { AreShortLists (lists_in search.now) }
    requires stage { IsOnAnOrder (lists_in search.now) search.now.from stage.now }
    ensures end { IfSome result (IsOnAnOrder (lists_in search.now) search.now.from) }
    ensures whole { IfSome result (IsWhole (lists_in search.now)) }
{
    let events = Events {
        client: &search.client,
        server: &search.server,
        hand: &search.hand,
        rises: false,
    };
    end_of_one_order(&events, stage)
}

/// The same, if there is a stage.
fn end_if(search: &Search, stage: Option<Stage>) -> Option<Stage>
    requires short { AreShortLists (lists_in search.now) }
    requires stage { IfSome stage (IsOnAnOrder (lists_in search.now) search.now.from) }
    ensures end { IfSome result (IsOnAnOrder (lists_in search.now) search.now.from) }
    ensures whole { IfSome result (IsWhole (lists_in search.now)) }
{
    match stage {
        Some(stage) => end_from(search, &stage),
        None => None,
    }
}

/// The open stages of the whole lists, from where the search may begin; whether one is whole; and that one.
fn found_from(
    alloc: Global,
    search: &Search,
    starts: Vec<Stage>,
) -> Result<(Vec<Stage>, bool, Option<Stage>), AllocError>
    requires short { AreShortLists (lists_in search.now) }
    requires bounds { All (InBounds (lists_in search.now)) starts.items }
    ensures reached { IfOk result (λ r. IsReached (eager (lists_in search.now)) (IsOpen (lists_in search.now)) starts.items r.0.items) }
    ensures bounds { IfOk result (λ r. All (InBounds (lists_in search.now)) r.0.items) }
    ensures whole { IfOk result (λ r. IsTrue r.1 ↔ ((m : Stage) × Contains r.0.items m × IsWhole (lists_in search.now) m)) }
    ensures end { IfOk result (λ r. IfSome r.2 (Contains r.0.items)) }
{
    let events = Events {
        client: &search.client,
        server: &search.server,
        hand: &search.hand,
        rises: rises(&search.hand),
    };
    let open = settle(alloc, &events, &starts)?;
    let whole = has_whole(&events, &open);
    let end = whole_of(&events, &open);
    Ok((open, whole, end))
}

/// Whether the lists have a legal order. Each order is looked for, and not one alone.
fn search_on(alloc: Global, search: &mut Search) -> Result<bool, AllocError>
    requires from { IsStart search.old.from }
    requires knows { Knows search.old }
    requires short { AreShortLists (lists_in search.old) }
    ensures answer { IfOk result (λ yes. IsTrue yes ↔ HasWalk (lists_in search.old) search.old.from) }
    ensures same { SameLists search.old search.new }
    ensures knows { OnOk result (Knows search.new) }
{
    let begins = starts(alloc, search)?;
    let (open, whole, end) = found_from(alloc, search, begins)?;
    search.end = end;
    search.open = open;
    search.known = true;
    search.clients = search.client.len();
    search.servers = search.server.len();
    search.hands = search.hand.len();
    Ok(whole)
}

/// Whether the lists with these pieces at their ends have a legal order. After an `Err` some pieces may be added.
fn go_on(
    alloc: Global,
    search: &mut Search,
    client: &[ClientEvent],
    server: &[ServerEvent],
    hand: &[HandEvent],
) -> Result<bool, AllocError>
    requires from { IsStart search.old.from }
    requires knows { Knows search.old }
    requires short { AreShortLists (joined (lists_in search.old) client.now server.now hand.now) }
    ensures answer { IfOk result (λ yes. IsTrue yes ↔ HasWalk (joined (lists_in search.old) client.now server.now hand.now) search.old.from) }
    ensures lists { OnOk result (lists_in search.new ≡ joined (lists_in search.old) client.now server.now hand.now) }
    ensures from { search.new.from ≡ search.old.from }
    ensures knows { OnOk result (Knows search.new) }
    ensures front { GoOn (lists_in search.old) (lists_in search.new) }
{
    let old = end_of_old(search, hand);
    append(search, client, server, hand)?;
    if let Some(end) = end_if(search, old) {
        search.end = Some(end);
        return Ok(true);
    }
    search_on(alloc, search)
}

/// Whether the lists with these pieces at their ends have a legal order. After an `Err` the lists are as before, and nothing is known.
pub(crate) fn extend(
    alloc: Global,
    search: &mut Search,
    client: &[ClientEvent],
    server: &[ServerEvent],
    hand: &[HandEvent],
) -> Result<bool, AllocError>
    requires from { IsStart search.old.from }
    requires knows { Knows search.old }
    requires short { AreShortLists (joined (lists_in search.old) client.now server.now hand.now) }
    ensures answer { IfOk result (λ yes. IsTrue yes ↔ HasWalk (joined (lists_in search.old) client.now server.now hand.now) search.old.from) }
    ensures lists { OnOk result (lists_in search.new ≡ joined (lists_in search.old) client.now server.now hand.now) }
    ensures as_before { OnErr result (lists_in search.new ≡ lists_in search.old) }
    ensures from { search.new.from ≡ search.old.from }
    ensures knows { Knows search.new }
{
    let clients = search.client.len();
    let servers = search.server.len();
    let hands = search.hand.len();
    let answer = go_on(alloc, search, client, server, hand);
    if answer.is_err() {
        search.client.truncate(clients);
        search.server.truncate(servers);
        search.hand.truncate(hands);
        search.known = false;
        search.end = None;
    }
    answer
}
