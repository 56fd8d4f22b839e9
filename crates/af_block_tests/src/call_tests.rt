//! Both proxies of one block, call by call, as tables.
ghost use Rattle.std.specs.Prelude.{◌≡◌, ◌+◌, ◌<◌, ◌≤◌};
ghost use Rattle.af_client.specs.Order.{IsClientOf};
ghost use Rattle.af_server.specs.Order.{IsServerOf};

use crate::calls::{Answer, Call, ask_client, ask_server, new_block};
use af_base::{Memory, Seen, Steps};
use af_cblk::Block;
use af_client::{Client, Sent, Wrote};
use af_server::{Look, Server};
use std::alloc::Global;
use std::marker::Brand;
use std::mem::drop;
use std::sync::ledger::{Blank, Ledger};
use std::test::*;

fn is_server(call: &Call) -> bool {
    matches!(
        call,
        Call::Look(_)
            | Call::Take(_)
            | Call::SeeGains
            | Call::Tally(_)
            | Call::SetFlags(_)
            | Call::SetStatus(_)
    )
}

// A call of either proxy, and what it answers.
type Row = (Call, Answer);

// A new block, and the rows of calls on it, in parts.
struct Case {
    name: &'static str,
    frames: u32,
    base: u32,
    positional: bool,
    parts: &'static [&'static [Row]],
}

// Whether the calls answer as the rows say.
fn all_answer<L: Ledger>(
    block: &Block,
    client: &mut Client,
    server: &mut Server,
    parts: &[&[Row]],
    steps: &mut Steps<L>,
) -> bool
    requires client { IsClientOf block.now client.old }
    requires server { IsServerOf block.now server.old }
{
    for part in parts {
        for (call, answer) in *part {
            let found = if is_server(call) {
                ask_server(block, server, call, steps)
            } else {
                ask_client(block, client, call, steps)
            };
            if found != *answer {
                return false;
            }
        }
    }
    true
}

// Whether the calls on a new block answer as the rows say, and its flushes are placed if they are to be.
fn plays_in<L: Ledger>(blank: Blank, alloc: Global, case: &Case) -> Result<bool, Memory>
    requires { (blank.name ≡ L.name) × (blank.parts ≡ L.parts) × (0 < blank.parts) }
{
    let mut steps = Steps::<L>::start(blank);
    let frames = case.frames.max(1).min(8192);
    let (block, client, server) = new_block(alloc, frames, case.base, case.positional)?;
    let mut client = Client::with(client, &block);
    let mut server = Server::with(server, &block);
    let right = all_answer(&block, &mut client, &mut server, case.parts, &mut steps);
    let wrap = u32::from(case.positional)
        .wrapping_mul(4)
        .wrapping_mul(block.cells());
    let placed = block.wrap() == wrap;
    drop(server);
    drop(client);
    drop(block);
    Ok(placed && right)
}

macro_rules! put {
    ($front:expr, $count:expr, $rest:expr) => {
        Answer::Wrote(Wrote::Put {
            front: $front,
            count: $count,
            rest: $rest,
        })
    };
}

macro_rules! full {
    ($front:expr) => {
        Answer::Wrote(Wrote::Full { front: $front })
    };
}

// What a look saw: the flush count, the rear, and what they come to.
macro_rules! saw {
    ($flush:expr, $rear:expr, $seen:expr) => {
        Answer::Saw(Look {
            flush: $flush,
            rear: $rear,
            seen: $seen,
        })
    };
}

macro_rules! flushed {
    ($flush:expr, $rear:expr, $dropped:expr) => {
        saw!($flush, $rear, Seen::Flushed { dropped: $dropped })
    };
}

// What a look saw that was to take, and the words of the frames.
macro_rules! took {
    ($flush:expr, $rear:expr, $seen:expr, $words:expr) => {
        Answer::Took(
            Look {
                flush: $flush,
                rear: $rear,
                seen: $seen,
            },
            $words,
        )
    };
}

macro_rules! frames {
    ($count:expr) => {
        Seen::Frames { count: $count }
    };
}

const POSITIONS: [Row; 6] = [
    (Call::Write(1, 4), put!(0xffff_fffe, 2, 2)),
    (Call::Write(3, 2), put!(0xffff_fffe, 2, 0)),
    (Call::Write(5, 1), full!(0xffff_fffe)),
    (Call::Take(3), took!(0, 2, frames!(3), [1, 2, 3])),
    (Call::Write(5, 1), put!(1, 1, 2)),
    (Call::Take(3), took!(0, 3, frames!(2), [4, 5, 0])),
];

// Three frames and four cells.
const CELLS: [Row; 7] = [
    (Call::Write(1, 4), put!(0, 3, 0)),
    (Call::Write(4, 1), full!(0)),
    (Call::Take(2), took!(0, 3, frames!(2), [1, 2, 0])),
    (Call::Write(4, 2), put!(2, 1, 1)),
    (Call::Write(5, 1), put!(2, 1, 0)),
    (Call::Take(3), took!(0, 5, frames!(3), [3, 4, 5])),
    (Call::Write(6, 1), put!(5, 1, 2)),
];

// The same across the wrap of positions.
const CELLS_WRAP: [Row; 7] = [
    (Call::Write(1, 4), put!(0xffff_fffe, 2, 1)),
    (Call::Write(3, 2), put!(0xffff_fffe, 1, 0)),
    (Call::Write(4, 1), full!(0xffff_fffe)),
    (Call::Take(2), took!(0, 1, frames!(2), [1, 2, 0])),
    (Call::Write(4, 2), put!(0, 2, 0)),
    (Call::Take(3), took!(0, 3, frames!(3), [3, 4, 5])),
    (Call::Write(6, 1), put!(3, 1, 2)),
];

const FLUSHES: [Row; 19] = [
    (Call::Write(1, 3), put!(0, 3, 5)),
    (Call::Flush, Answer::Word(1)),
    (Call::Write(4, 2), put!(0, 2, 3)),
    (Call::Look(4), flushed!(1, 5, 5)),
    (Call::Look(4), saw!(1, 5, Seen::Empty)),
    (Call::Flush, Answer::Word(2)),
    (Call::Flush, Answer::Word(3)),
    (Call::Look(4), flushed!(3, 5, 0)),
    (Call::Write(6, 1), put!(5, 1, 7)),
    (Call::Take(3), took!(3, 6, frames!(1), [6, 0, 0])),
    (Call::Gains(0x0800_0400), Answer::Done),
    (Call::SeeGains, Answer::Word(0x0800_0400)),
    (Call::Tally(3), Answer::Done),
    (Call::Tally(2), Answer::Done),
    (Call::SetFlags(8), Answer::Done),
    (Call::Write(7, 1), put!(6, 1, 7)),
    (Call::Clear, Answer::Word(9)),
    (Call::SetFlags(4), Answer::Done),
    (Call::Write(8, 1), Answer::Wrote(Wrote::Dead { flags: 5 })),
];

// Flushes that are counted drop all that is there.
const COUNTED: [Row; 11] = [
    (Call::Write(1, 3), put!(0, 3, 1)),
    (Call::Flush, Answer::Word(1)),
    (Call::Write(4, 1), put!(0, 1, 0)),
    (Call::Look(4), flushed!(1, 4, 4)),
    (Call::Look(4), saw!(1, 4, Seen::Empty)),
    (Call::Flush, Answer::Word(2)),
    (
        Call::Take(3),
        took!(2, 4, Seen::Flushed { dropped: 0 }, [0; 3]),
    ),
    (Call::Flush, Answer::Word(3)),
    (Call::Write(5, 2), put!(4, 2, 2)),
    (Call::Look(4), flushed!(3, 6, 2)),
    (Call::Take(3), took!(3, 6, Seen::Empty, [0; 3])),
];

// Flushes that carry their position spare what is written after them.
const PLACED: [Row; 11] = [
    (Call::Write(1, 3), put!(0, 3, 1)),
    (Call::Flush, Answer::Word(1)),
    (Call::Write(4, 1), put!(0, 1, 0)),
    (Call::Look(4), flushed!(19, 4, 3)),
    (Call::Look(4), saw!(19, 4, frames!(1))),
    (Call::Flush, Answer::Word(2)),
    (
        Call::Take(3),
        took!(36, 4, Seen::Flushed { dropped: 1 }, [0; 3]),
    ),
    (Call::Flush, Answer::Word(3)),
    (Call::Write(5, 2), put!(4, 2, 2)),
    (Call::Look(4), flushed!(52, 6, 0)),
    (Call::Take(3), took!(52, 6, frames!(2), [5, 6, 0])),
];

const COUNTED_WRAP: [Row; 11] = [
    (Call::Write(1, 4), put!(0xffff_fffe, 2, 2)),
    (Call::Write(3, 1), put!(0xffff_fffe, 1, 1)),
    (Call::Flush, Answer::Word(1)),
    (Call::Write(4, 1), put!(0xffff_fffe, 1, 0)),
    (Call::Look(4), flushed!(1, 2, 4)),
    (Call::Take(3), took!(1, 2, Seen::Empty, [0; 3])),
    (Call::Write(5, 2), put!(2, 2, 2)),
    (Call::Poke(2, 0), Answer::Done),
    (Call::Poke(0, 90), Answer::Done),
    (Call::Look(4), flushed!(0, 4, 0xffff_ffaa)),
    (Call::Look(4), saw!(0, 4, Seen::Empty)),
];

const PLACED_WRAP: [Row; 11] = [
    (Call::Write(1, 4), put!(0xffff_fffe, 2, 2)),
    (Call::Write(3, 1), put!(0xffff_fffe, 1, 1)),
    (Call::Flush, Answer::Word(1)),
    (Call::Write(4, 1), put!(0xffff_fffe, 1, 0)),
    (Call::Look(4), flushed!(17, 2, 3)),
    (Call::Take(3), took!(17, 2, frames!(1), [4, 0, 0])),
    (Call::Write(5, 2), put!(2, 2, 2)),
    (Call::Poke(2, 0), Answer::Done),
    (Call::Poke(0, 90), Answer::Done),
    (Call::Look(4), saw!(0, 4, Seen::Shut { front: 90, rear: 4 })),
    (Call::Look(4), saw!(0, 4, Seen::Shut { front: 90, rear: 4 })),
];

const CORRUPT: Answer = Answer::Wrote(Wrote::Corrupt { front: 3, rear: 2 });

const SHUT: Answer = saw!(
    0,
    3,
    Seen::Shut {
        front: 100,
        rear: 3,
    }
);

// A client that pokes shuts both.
const POKES: [Row; 8] = [
    (Call::Write(1, 2), put!(0, 2, 2)),
    (Call::Poke(1, 3), Answer::Done),
    (Call::Take(3), took!(0, 3, frames!(3), [1, 2, 0])),
    (Call::Write(3, 1), CORRUPT),
    (Call::Write(3, 1), CORRUPT),
    (Call::Poke(0, 100), Answer::Done),
    (Call::Look(4), SHUT),
    (Call::Look(4), SHUT),
];

// As many commands as a command block has room for, and then what comes once the server took one.
const SENT: [Row; 64] = [(Call::Send(1, 0), Answer::Sent(Sent::Sent { front: 0 })); 64];

const FILLED: [Row; 5] = [
    (Call::Send(1, 0), Answer::Sent(Sent::Full { front: 0 })),
    (Call::Take(2), took!(0, 128, frames!(2), [1, 0, 0])),
    (Call::SetStatus(514), Answer::Done),
    (Call::Status, Answer::Word(514)),
    (Call::Send(2, 0), Answer::Sent(Sent::Sent { front: 2 })),
];

macro_rules! case {
    ($name:expr, $frames:expr, $base:expr, $positional:expr, $parts:expr) => {
        Case {
            name: $name,
            frames: $frames,
            base: $base,
            positional: $positional,
            parts: $parts,
        }
    };
}

const CASES: [Case; 10] = [
    case!("positions wrap", 4, 0xffff_fffe, false, &[&POSITIONS]),
    case!("cells are more than frames", 3, 0, false, &[&CELLS]),
    case!(
        "cells across the wrap",
        3,
        0xffff_fffe,
        false,
        &[&CELLS_WRAP]
    ),
    case!("each new flush is noticed once", 8, 0, false, &[&FLUSHES]),
    case!("counted flushes", 4, 0, false, &[&COUNTED]),
    case!("placed flushes", 4, 0, true, &[&PLACED]),
    case!(
        "counted flushes across the wrap",
        4,
        0xffff_fffe,
        false,
        &[&COUNTED_WRAP]
    ),
    case!(
        "placed flushes across the wrap",
        4,
        0xffff_fffe,
        true,
        &[&PLACED_WRAP]
    ),
    case!("a client that pokes shuts both", 4, 0, false, &[&POKES]),
    case!(
        "commands fill their block",
        128,
        0,
        false,
        &[&SENT, &FILLED]
    ),
];

#[test]
fn both_proxies_answer_as_the_tables_say(rt: HostRuntime) {
    for case in &CASES {
        let found = plays_in::<Brand>(Blank::new(1), rt.alloc(), case);
        let name = case.name;
        assert!(rt; found == Ok(true), "{name}");
    }
}
