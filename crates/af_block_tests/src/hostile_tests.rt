//! A client and a server on two threads, on a stream block and a command block, that meet between their rounds. In each tenth run the client pokes.
ghost use Rattle.std.specs.Prelude.{◌≡◌, ◌<◌, ◌≤◌, ◌^◌, IfOk};
ghost use Rattle.af_merges.specs.Merges.{IsStart};
ghost use Rattle.af_client.specs.Order.{IsClientOf};
ghost use Rattle.af_server.specs.Order.{IsServerOf};

use crate::calls::{Call, new_block};
use crate::sides::{Recorded, Side, meet};
use af_base::{ClientEvent, Memory, ServerEvent, Steps};
use af_cblk::Block;
use af_client::Client;
use af_merges::merge_check;
use af_model::TrackPoint;
use af_server::Server;
use std::alloc::Global;
use std::marker::Brand;
use std::mem::drop;
use std::sync::atomic::{AtomicU32, Ordering};
use std::sync::ledger::{Blank, Ledger};
use std::test::*;
use std::thread::{Threads, join, yield_now};

const ROUNDS: u32 = 3;

// How many turns a round of a client that pokes has: in all rounds it pokes each of 135 words with each of six values.
const POKED_TURNS: u32 = 270;

// A thing of the stream block, and the same of the command block.
#[derive(Drop)]
struct Both<T> {
    stream: T,
    command: T,
}

// What the client does, turn by turn, on the stream block and on the command block.
const CLIENT_TURNS: [(Call, Call); 8] = [
    (Call::Write(1, 3), Call::Send(1, 0)),
    (Call::Write(4, 2), Call::Status),
    (Call::Flush, Call::Send(2, 70)),
    (Call::Write(6, 4), Call::Send(3, 0)),
    (Call::Gains(0x0800_0400), Call::Status),
    (Call::Write(10, 1), Call::Send(4, 5)),
    (Call::Clear, Call::Send(5, 0)),
    (Call::Write(11, 4), Call::Status),
];

// What the server does, turn by turn, on the stream block and on the command block.
const SERVER_TURNS: [(Call, Call); 8] = [
    (Call::Take(3), Call::Take(2)),
    (Call::Tally(2), Call::SetStatus(257)),
    (Call::Take(1), Call::Take(2)),
    (Call::SeeGains, Call::Look(2)),
    (Call::Take(2), Call::SetStatus(514)),
    (Call::SetFlags(8), Call::Take(2)),
    (Call::Take(3), Call::Take(2)),
    (Call::Look(2), Call::Take(2)),
];

// Waits for the other thread, but not forever.
fn start_together(here: &AtomicU32) {
    here.fetch_add(1, Ordering::SeqCst);
    for _ in 0..100_000u32 {
        if here.load(Ordering::SeqCst) >= 2 {
            return;
        }
        yield_now();
    }
}

// The poke of a number, from a word on: each word and cell with each of six values.
fn poke(block: &Block, first: u32, number: u32) -> Call {
    let size = block.frames();
    let values = [0, 1, size, size.wrapping_add(1), 0x8000_0000, 0xffff_ffff];
    let words = 7 + block.cells();
    let word = first.wrapping_add(number / 6) % words;
    Call::Poke(word, values[(number % 6) as usize])
}

// What one side does in a round.
#[derive(Clone, Copy)]
enum Turns {
    Client,
    // The client's turns over and over, and after each a poke, from a word on.
    Poking { first: u32, round: u32 },
    Server,
    // The server's turns over and over: fewer than those of a client that pokes, so that the command block is full at times.
    BesidePokes,
}

impl Turns {
    // How many turns these are.
    fn count(self) -> u32 {
        match self {
            Turns::Client | Turns::Server => 8,
            Turns::Poking { .. } => 2 * POKED_TURNS,
            Turns::BesidePokes => POKED_TURNS / 16 * 8,
        }
    }

    // The turn of a number.
    fn turn(self, blocks: &Both<Block>, number: u32) -> (Call, Call) {
        match self {
            Turns::Client => CLIENT_TURNS[(number % 8) as usize],
            Turns::Poking { .. } if number % 2 == 0 => CLIENT_TURNS[(number / 2 % 8) as usize],
            Turns::Poking { first, round } => {
                let number = round.wrapping_mul(POKED_TURNS).wrapping_add(number / 2);
                (
                    poke(&blocks.stream, first, number),
                    poke(&blocks.command, first, number),
                )
            }
            _ => SERVER_TURNS[(number % 8) as usize],
        }
    }
}

// Makes the calls in order, each on its block.
fn play_all<S: Side, L: Ledger>(
    blank: Blank,
    blocks: &Both<Block>,
    mut sides: Both<S>,
    turns: Turns,
) -> Both<S>
    requires ledger { (blank.name ≡ L.name) × (blank.parts ≡ L.parts) × (0 < blank.parts) }
    requires stream { S.is_ready blocks.now.stream sides.stream }
    requires command { S.is_ready blocks.now.command sides.command }
    ensures stream { S.is_ready blocks.now.stream result.stream }
    ensures command { S.is_ready blocks.now.command result.command }
{
    let mut steps = Steps::<L>::start(blank);
    for number in 0..turns.count() {
        let (on_stream, on_command) = turns.turn(blocks, number);
        sides.stream.play(&blocks.stream, &on_stream, &mut steps);
        sides.command.play(&blocks.command, &on_command, &mut steps);
    }
    sides
}

// One thread of a round.
fn play_round<S: Side>(
    here: &AtomicU32,
    blocks: &Both<Block>,
    sides: Both<S>,
    turns: Turns,
) -> Both<S>
    requires stream { S.is_ready blocks.now.stream sides.stream }
    requires command { S.is_ready blocks.now.command sides.command }
    ensures stream { S.is_ready blocks.now.stream result.stream }
    ensures command { S.is_ready blocks.now.command result.command }
{
    start_together(here);
    play_all::<S, Brand>(Blank::new(1), blocks, sides, turns)
}

type Clients = Both<Recorded<Client, ClientEvent>>;

type Servers = Both<Recorded<Server, ServerEvent>>;

// Both threads of a round.
fn round<R: Threads + Sync>(
    rt: &R,
    blocks: &Both<Block>,
    clients: Clients,
    servers: Servers,
    ours: Turns,
    theirs: Turns,
) -> (Clients, Servers)
    requires clients { IsClientOf blocks.now.stream clients.stream.proxy × IsClientOf blocks.now.command clients.command.proxy }
    requires servers { IsServerOf blocks.now.stream servers.stream.proxy × IsServerOf blocks.now.command servers.command.proxy }
    ensures clients { IsClientOf blocks.now.stream result.0.stream.proxy × IsClientOf blocks.now.command result.0.command.proxy }
    ensures servers { IsServerOf blocks.now.stream result.1.stream.proxy × IsServerOf blocks.now.command result.1.command.proxy }
{
    let here = AtomicU32::new(0);
    let at = &here;
    join(
        rt,
        move || -> Clients
            requires { IsClientOf blocks.now.stream clients.stream.proxy × IsClientOf blocks.now.command clients.command.proxy }
            ensures { IsClientOf blocks.entry.now.stream result.stream.proxy × IsClientOf blocks.entry.now.command result.command.proxy }
        { play_round(at, blocks, clients, ours) },
        move || -> Servers
            requires { IsServerOf blocks.now.stream servers.stream.proxy × IsServerOf blocks.now.command servers.command.proxy }
            ensures { IsServerOf blocks.entry.now.stream result.stream.proxy × IsServerOf blocks.entry.now.command result.command.proxy }
        { play_round(at, blocks, servers, theirs) },
    )
}

// A block at its base.
fn fresh(base: u64, wrap: u32) -> TrackPoint
    requires { base < 2 ^ 32 }
    ensures { IsStart result }
{
    TrackPoint {
        released: base,
        consumed: base,
        flushes: 0,
        flush_seen: 0,
        rear_seen: base,
        gains: 0x1000_1000,
        flags: 0,
        status: 0,
        underruns: 0,
        flush_at: 0,
        drop_to: 0,
        wrap,
    }
}

// Whether each answer had its cause, and, if the client does not poke, the lists have a legal order. Each list has at most 10,000 events.
fn has_causes_and_order(
    alloc: Global,
    block: &Block,
    client: &Recorded<Client, ClientEvent>,
    server: &Recorded<Server, ServerEvent>,
) -> bool {
    let sound = client.sound && server.sound;
    if client.poked || !sound {
        return sound;
    }
    if client.list.len() > 10_000 || server.list.len() > 10_000 {
        return false;
    }
    let from = fresh(u64::from(block.base()), block.wrap());
    merge_check(
        alloc,
        client.list.as_slice(),
        server.list.as_slice(),
        &[],
        &from,
    ) == Ok(true)
}

// The meetings after a round, and whether on each block the answers have their causes, and the lists an order.
fn meet_both(
    alloc: Global,
    blocks: &Both<Block>,
    clients: &mut Clients,
    servers: &mut Servers,
) -> bool
    requires clients { IsClientOf blocks.now.stream clients.old.stream.proxy × IsClientOf blocks.now.command clients.old.command.proxy }
    requires servers { IsServerOf blocks.now.stream servers.old.stream.proxy × IsServerOf blocks.now.command servers.old.command.proxy }
    ensures clients { IsClientOf blocks.now.stream clients.new.stream.proxy × IsClientOf blocks.now.command clients.new.command.proxy }
    ensures servers { IsServerOf blocks.now.stream servers.new.stream.proxy × IsServerOf blocks.now.command servers.new.command.proxy }
{
    let Both { stream, command } = blocks;
    meet(stream, &mut clients.stream, &mut servers.stream);
    meet(command, &mut clients.command, &mut servers.command);
    let first = has_causes_and_order(alloc, stream, &clients.stream, &servers.stream);
    first && has_causes_and_order(alloc, command, &clients.command, &servers.command)
}

// A run: the frames and the base of its stream block, whether its flushes carry their position, and from which word on its client pokes, if it does.
#[derive(Clone, Copy, Drop)]
struct Plan {
    frames: u32,
    base: u32,
    positional: bool,
    poked: Option<u32>,
}

impl Plan {
    // What client and server do in a round.
    fn turns(&self, round: u32) -> (Turns, Turns) {
        match self.poked {
            None => (Turns::Client, Turns::Server),
            Some(first) => (Turns::Poking { first, round }, Turns::BesidePokes),
        }
    }
}

// All rounds of a run, with a meeting after each: whether the causes and the order hold after each.
fn rounds<R: Threads + Sync>(
    rt: &R,
    alloc: Global,
    plan: &Plan,
    blocks: &Both<Block>,
    mut clients: Clients,
    mut servers: Servers,
) -> bool
    requires clients { IsClientOf blocks.now.stream clients.stream.proxy × IsClientOf blocks.now.command clients.command.proxy }
    requires servers { IsServerOf blocks.now.stream servers.stream.proxy × IsServerOf blocks.now.command servers.command.proxy }
{
    let mut all = true;
    for number in 0..ROUNDS {
        let (ours, theirs) = plan.turns(number);
        (clients, servers) = round(rt, blocks, clients, servers, ours, theirs);
        all = meet_both(alloc, blocks, &mut clients, &mut servers) && all;
    }
    drop(servers);
    drop(clients);
    all
}

// A block and both of its proxies, whose calls are written down.
#[derive(Drop)]
struct Written {
    block: Block,
    client: Recorded<Client, ClientEvent>,
    server: Recorded<Server, ServerEvent>,
}

fn new_written(
    alloc: Global,
    frames: u32,
    base: u32,
    positional: bool,
    poked: bool,
) -> Result<Written, Memory>
    requires { (1 ≤ frames) × (frames ≤ 8192) }
    ensures client { IfOk result (λ w. IsClientOf w.block w.client.proxy) }
    ensures server { IfOk result (λ w. IsServerOf w.block w.server.proxy) }
{
    let (block, client, server) = new_block(alloc, frames, base, positional)?;
    let client = Recorded::new(alloc, Client::with(client, &block), poked);
    let server = Recorded::new(alloc, Server::with(server, &block), poked);
    Ok(Written {
        block,
        client,
        server,
    })
}

// A run on two new blocks.
fn run<R: Threads + Sync>(rt: &R, alloc: Global, plan: &Plan) -> Result<bool, Memory>
    requires { (1 ≤ plan.now.frames) × (plan.now.frames ≤ 8192) }
{
    let poked = plan.poked.is_some();
    let stream = new_written(alloc, plan.frames, plan.base, plan.positional, poked)?;
    let Ok(command) = new_written(alloc, 128, 0, false, poked) else {
        drop(stream);
        return Err(Memory);
    };
    let clients = Both {
        stream: stream.client,
        command: command.client,
    };
    let servers = Both {
        stream: stream.server,
        command: command.server,
    };
    let blocks = Both {
        stream: stream.block,
        command: command.block,
    };
    let all = rounds(rt, alloc, plan, &blocks, clients, servers);
    drop(blocks);
    Ok(all)
}

// The plan of the run of a number. Each tenth pokes, and half of the runs have flushes that carry their position.
fn plan_of(number: u32) -> Plan
    ensures { (1 ≤ result.frames) × (result.frames ≤ 8192) }
{
    let (frames, base) = match number % 3 {
        0 => (3, 0xffff_fffe),
        1 => (5, 0xffff_fffa),
        _ => (4, 7),
    };
    let poked = match number {
        9 => Some(7),
        19 => Some(2),
        29 => Some(0),
        _ => None,
    };
    Plan {
        frames,
        base,
        positional: number % 2 == 0,
        poked,
    }
}

#[test]
fn each_answer_has_its_cause_and_the_lists_an_order(rt: HostRuntime) {
    for number in 0..30 {
        let found = run(&rt, rt.alloc(), &plan_of(number));
        assert!(rt; found == Ok(true), "run {number}");
    }
}
