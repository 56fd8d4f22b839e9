//! Cases of merges whose answers were worked out by hand.
ghost use Rattle.std.specs.Prelude.{◌≡◌, ◌+◌, ◌*◌, ◌≤◌, OnOk, length, []};
ghost use Rattle.af_merges.specs.Merges.{IsStart};

use crate::merge_plain::Lists;
use af_base::{ClientEvent, HandEvent, Memory, ServerEvent};
use af_merges::{Merge, merge_check};
use af_model::TrackPoint;
use std::alloc::Global;
use std::mem::drop;
use std::test::*;

/// A block with no frames and no flags, at that base, and with that wrap of its flushes.
fn fresh(base: u32, wrap: u32) -> TrackPoint
    ensures { IsStart result }
{
    TrackPoint {
        released: u64::from(base),
        consumed: u64::from(base),
        flushes: 0,
        flush_seen: 0,
        rear_seen: u64::from(base),
        gains: 0x1000_1000,
        flags: 0,
        status: 0,
        underruns: 0,
        flush_at: 0,
        drop_to: 0,
        wrap,
    }
}

/// Three lists cut in two.
fn cut<'a>(lists: Lists<'a>, at: (usize, usize, usize)) -> (Lists<'a>, Lists<'a>) {
    let client = lists.0.split_at(at.0.min(lists.0.len()));
    let server = lists.1.split_at(at.1.min(lists.1.len()));
    let hand = lists.2.split_at(at.2.min(lists.2.len()));
    ((client.0, server.0, hand.0), (client.1, server.1, hand.1))
}

/// Adds a piece to the lists of a merge that has so many before. Each piece has at most 1000 events.
fn goes_on(merge: &mut Merge, lists: Lists<'_>, before: u32) -> Result<bool, Memory>
    requires few { before ≤ 2 }
    requires client { length merge.old.client ≤ 1000 * before }
    requires server { length merge.old.server ≤ 1000 * before }
    requires hand { length merge.old.hand ≤ 1000 * before }
    ensures client { OnOk result (length merge.new.client ≤ 1000 * (before + 1)) }
    ensures server { OnOk result (length merge.new.server ≤ 1000 * (before + 1)) }
    ensures hand { OnOk result (length merge.new.hand ≤ 1000 * (before + 1)) }
{
    let (client, server, hand) = lists;
    if client.len() > 1000 || server.len() > 1000 || hand.len() > 1000 {
        return Err(Memory);
    }
    merge.extend(client, server, hand)
}

/// What a `Merge` of empty lists answers after each of three pieces.
fn decide_each(
    merge: &mut Merge,
    first: Lists<'_>,
    second: Lists<'_>,
    third: Lists<'_>,
) -> Result<(bool, bool, bool), Memory>
    requires empty { (merge.old.client ≡ []) × (merge.old.server ≡ []) × (merge.old.hand ≡ []) }
{
    let begins = goes_on(merge, first, 0)?;
    let goes = goes_on(merge, second, 1)?;
    let ends = goes_on(merge, third, 2)?;
    Ok((begins, goes, ends))
}

/// What a new `Merge` answers after each of three pieces.
fn decide_pieces(
    alloc: Global,
    first: Lists<'_>,
    second: Lists<'_>,
    third: Lists<'_>,
    from: &TrackPoint,
) -> Result<(bool, bool, bool), Memory>
    requires { IsStart from.now }
{
    let mut merge = Merge::new(alloc, from);
    let answers = decide_each(&mut merge, first, second, third);
    drop(merge);
    answers
}

/// What `merge_check` answers.
fn decide_whole(alloc: Global, lists: Lists<'_>, from: &TrackPoint) -> Result<bool, Memory>
    requires { IsStart from.now }
{
    let (client, server, hand) = lists;
    if client.len() > 1000 || server.len() > 1000 || hand.len() > 1000 {
        return Err(Memory);
    }
    merge_check(alloc, client, server, hand, from)
}

/// Where three lists are cut.
pub(crate) type Cut = (usize, usize, usize);

/// What `merge_check` answers, and a `Merge` after each of three pieces.
pub(crate) fn decide(
    alloc: Global,
    lists: Lists<'_>,
    first: Cut,
    middle: Cut,
    from: &TrackPoint,
) -> Result<(bool, (bool, bool, bool)), Memory>
    requires { IsStart from.now }
{
    let (two, third) = cut(lists, middle);
    let (one, second) = cut(two, first);
    let whole = decide_whole(alloc, lists, from)?;
    let pieces = decide_pieces(alloc, one, second, third, from)?;
    Ok((whole, pieces))
}

/// Three lists from a base, and where they are cut in three. Of the answers after the first two pieces not all are known.
struct Case {
    name: &'static str,
    base: u32,
    wrap: u32,
    client: &'static [ClientEvent],
    server: &'static [ServerEvent],
    hand: &'static [HandEvent],
    first: Cut,
    middle: Cut,
    before: Option<(bool, bool)>,
    legal: bool,
}

const SAW: ClientEvent = ClientEvent::SawFlags { flags: 0 };

const FRONT: u32 = 0xffff_fffe;

const SEEN: ClientEvent = ClientEvent::SawFront { front: FRONT };

const PUT: ClientEvent = ClientEvent::Release { count: 2 };

/// Two writes of two frames and one into a full block of four: the rear wraps.
const WRITES: [ClientEvent; 8] = [SAW, SEEN, PUT, SAW, SEEN, PUT, SAW, SEEN];

/// A look at those writes, and a take of so many frames.
macro_rules! takes {
    ($count:expr) => {
        [
            ServerEvent::SawFlush { flush: 0 },
            ServerEvent::SawRear { rear: 2 },
            ServerEvent::SawFront { front: FRONT },
            ServerEvent::Take { count: $count },
        ]
    };
}

const FLUSHED: [ClientEvent; 4] = [
    ClientEvent::Flush,
    ClientEvent::Release { count: 4 },
    ClientEvent::SawFront { front: 4 },
    ClientEvent::Release { count: 4 },
];

/// A take of what was released first, a look at the flush, and a drop up to a position.
macro_rules! drops {
    ($to:expr) => {
        [
            ServerEvent::SawFlush { flush: 0 },
            ServerEvent::SawRear { rear: 4 },
            ServerEvent::SawFront { front: 0 },
            ServerEvent::Take { count: 4 },
            ServerEvent::SawFlush { flush: 16 },
            ServerEvent::SawRear { rear: 8 },
            ServerEvent::SawFront { front: 4 },
            ServerEvent::Drop { to: $to },
        ]
    };
}

const SET: HandEvent = HandEvent::SetFlags { bits: 8 };

const MET: HandEvent = HandEvent::Met { client: 1 };

const MET_NONE: HandEvent = HandEvent::Met { client: 0 };

const TAKE: Case = Case {
    name: "a take of the frames that were seen",
    base: FRONT,
    wrap: 0,
    client: &WRITES,
    server: &takes!(3),
    hand: &[],
    first: (5, 2, 0),
    middle: (8, 3, 0),
    before: None,
    legal: true,
};

const LATE: Case = Case {
    name: "a meeting that is known late forbids an order that was found before",
    base: 0,
    wrap: 0,
    client: &[ClientEvent::ClearFlags { old: 0 }],
    server: &[],
    hand: &[SET, MET_NONE],
    first: (1, 0, 1),
    middle: (1, 0, 1),
    before: Some((true, true)),
    legal: false,
};

const CASES: [Case; 12] = [
    TAKE,
    Case {
        name: "a take of more",
        server: &takes!(5),
        legal: false,
        ..TAKE
    },
    Case {
        name: "a take beside a hand that met the client",
        hand: &[HandEvent::Met { client: 8 }],
        first: (8, 1, 0),
        middle: (8, 4, 0),
        ..TAKE
    },
    Case {
        name: "a take of more beside a hand that met the client",
        server: &takes!(5),
        hand: &[HandEvent::Met { client: 8 }],
        first: (8, 1, 0),
        middle: (8, 4, 0),
        legal: false,
        ..TAKE
    },
    LATE,
    Case {
        name: "a late meeting after the clear",
        hand: &[SET, MET],
        legal: true,
        ..LATE
    },
    Case {
        name: "the first event of a hand that had none may still stand before all others",
        client: &[ClientEvent::ClearFlags { old: 8 }],
        hand: &[SET],
        first: (1, 0, 0),
        middle: (1, 0, 0),
        before: Some((false, false)),
        legal: true,
        ..LATE
    },
    Case {
        name: "a meeting binds the hand's other events, and not its own place",
        client: &[ClientEvent::Release { count: 1 }],
        hand: &[MET, MET_NONE],
        first: (0, 0, 1),
        middle: (1, 0, 1),
        legal: true,
        ..LATE
    },
    Case {
        name: "two meetings that bind an event both ways",
        client: &[ClientEvent::Release { count: 1 }],
        hand: &[MET, SET, MET_NONE],
        first: (1, 0, 1),
        middle: (1, 0, 2),
        ..LATE
    },
    Case {
        name: "a flush of a positional block drops what was released before it",
        base: 0,
        wrap: 16,
        client: &FLUSHED,
        server: &drops!(4),
        first: (1, 4, 0),
        middle: (4, 7, 0),
        ..TAKE
    },
    Case {
        name: "and no frame that came later",
        base: 0,
        wrap: 16,
        client: &FLUSHED,
        server: &drops!(8),
        first: (1, 4, 0),
        middle: (4, 7, 0),
        legal: false,
        ..TAKE
    },
    Case {
        name: "a rear may be seen a whole turn of its word later than where it first fits",
        client: &[
            ClientEvent::Release { count: u32::MAX },
            ClientEvent::Release { count: 1 },
        ],
        server: &[
            ServerEvent::SawRear { rear: 0 },
            ServerEvent::Take { count: 5 },
        ],
        hand: &[],
        first: (0, 2, 0),
        middle: (1, 2, 0),
        before: Some((false, false)),
        legal: true,
        ..LATE
    },
];

/// Whether the lists of a case are decided so, whole and after each of their pieces.
fn is_decided(alloc: Global, case: &Case) -> Result<bool, Memory> {
    let lists = (case.client, case.server, case.hand);
    let from = fresh(case.base, case.wrap);
    let (whole, pieces) = decide(alloc, lists, case.first, case.middle, &from)?;
    let (begins, goes_on, ends) = pieces;
    let right = case.before.unwrap_or((begins, goes_on)) == (begins, goes_on);
    Ok(right && whole == case.legal && ends == case.legal)
}

#[test]
fn lists_are_decided_as_by_hand(rt: HostRuntime) {
    for case in &CASES {
        let found = is_decided(rt.alloc(), case);
        let name = case.name;
        assert!(rt; found == Ok(true), "{name}");
    }
}

/// Three free lists without a meeting cost what their different stages cost, and not what their orders would.
#[test]
fn free_lists_cost_their_stages(rt: HostRuntime) -> Result<(), Fail> {
    let client = [ClientEvent::Release { count: 1 }; 80];
    let server = [ServerEvent::Tally { missing: 1 }; 80];
    let hand = [HandEvent::SetFlags { bits: 8 }; 80];
    let legal = merge_check(rt.alloc(), &client, &server, &hand, &fresh(0, 0))?;
    assert!(rt; legal);
    Ok(())
}
