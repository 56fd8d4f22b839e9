//! A client alone, by its turns, against servers of its two blocks that the test moves.
ghost use Rattle.std.specs.Prelude.{◌≡◌, ℕ, ◌<◌, ◌≤◌, All, IfOk, List, length};
ghost use Rattle.af_client.specs.Order.{IsClientOf};
ghost use Rattle.af_script.specs.declared.op.Op.{Op as OpSeen};
ghost use Rattle.af_server.specs.Order.{IsServerOf};
ghost use Rattle.af_normal.specs.Meeting.{AreClientsOf};
ghost use Rattle.af_party.specs.Works.{CanWork, IsFittingOp, flushes_to_come, frames_to_come};

use crate::joints::{Joints, join};
use af_base::{ClientCall, DISABLED, Frame, INVALID, Items, Memory, Seen, Steps};
use af_cblk::Block;
use af_client::Client as Proxy;
use af_life::{OPEN, REMOVE, START, STOP};
use af_link::Links;
use af_party::Party;
use af_runs::Client;
use af_script::Op;
use af_server::Server;
use std::alloc::Global;
use std::marker::Brand;
use std::mem::drop;
use std::slice::from_ref;
use std::sync::ledger::{Blank, Ledger};
use std::test::*;

// What is done next.
#[derive(Clone, Copy)]
enum Step {
    // A turn makes these calls.
    Turn(&'static [ClientCall]),
    // A turn makes so many calls.
    Makes(usize),
    // The stream's server sets these flags.
    Flags(u32),
    // The stream's server takes up to so many frames.
    Takes(u32),
    // The other server takes up to so many commands.
    Obeys(u32),
    // The other server stores this status.
    Tells(u32),
    // The client has ended.
    Ended,
}

const SILENCE: Frame = Frame { left: 0, right: 0 };

// Takes up to four frames.
fn takes<L: Ledger>(block: &Block, server: &mut Server, ask: u32, steps: &mut Steps<L>)
    requires ready { IsServerOf block.now server.old }
    requires ask { (1 ≤ ask) × (ask ≤ 4) }
    ensures ready { IsServerOf block.now server.new }
{
    let mut into = [SILENCE; 4];
    let look = server.look(block, ask, steps);
    if let Seen::Frames { count } = look.seen {
        server.take(block, &mut into[..count as usize], steps);
    }
}

// A turn; false if too much was sent before it.
fn turns<L: Ledger>(
    party: &mut Party,
    links: &Links<'_>,
    ops: &[Op],
    file: &[Frame],
    steps: &mut Steps<L>,
) -> bool
    requires clients { AreClientsOf links.now party.old.track party.old.stream party.old.command }
    requires work { CanWork ops.now (length file.now) party.old }
    ensures clients { AreClientsOf links.now party.new.track party.new.stream party.new.command }
    ensures work { CanWork ops.now (length file.now) party.new }
{
    if party.command.released() > 10_000 {
        return false;
    }
    party.turn(links, ops, file, steps);
    true
}

// Whether a step does what it says.
fn does<L: Ledger>(
    party: &mut Party,
    servers: &mut (Server, Server),
    links: &Links<'_>,
    stream: &Block,
    command: &Block,
    ops: &[Op],
    file: &[Frame],
    step: &Step,
    steps: &mut Steps<L>,
) -> bool
    requires clients { AreClientsOf links.now party.old.track party.old.stream party.old.command }
    requires work { CanWork ops.now (length file.now) party.old }
    requires servers { IsServerOf stream.now servers.old.0 × IsServerOf command.now servers.old.1 }
    ensures clients { AreClientsOf links.now party.new.track party.new.stream party.new.command }
    ensures work { CanWork ops.now (length file.now) party.new }
    ensures servers { IsServerOf stream.now servers.new.0 × IsServerOf command.now servers.new.1 }
{
    match *step {
        Step::Turn(calls) => {
            turns(party, links, ops, file, steps) && party.calls.as_slice() == calls
        }
        Step::Makes(count) => {
            turns(party, links, ops, file, steps) && party.calls.as_slice().len() == count
        }
        Step::Flags(bits) => {
            servers.0.set_flags(stream, bits, steps);
            true
        }
        Step::Takes(count) if count > 0 && count <= 4 => {
            takes(stream, &mut servers.0, count, steps);
            true
        }
        Step::Obeys(count) if count > 0 && count <= 2 => {
            takes(command, &mut servers.1, 2 * count, steps);
            true
        }
        Step::Tells(word) => {
            servers.1.set_status(command, word, steps);
            true
        }
        Step::Ended => party.has_ended(),
        _ => false,
    }
}

// Whether each step of a table does what it says.
fn all_do<L: Ledger>(
    party: &mut Party,
    servers: &mut (Server, Server),
    links: &Links<'_>,
    stream: &Block,
    command: &Block,
    ops: &[Op],
    file: &[Frame],
    table: &[Step],
    steps: &mut Steps<L>,
) -> bool
    requires clients { AreClientsOf links.now party.old.track party.old.stream party.old.command }
    requires work { CanWork ops.now (length file.now) party.old }
    requires servers { IsServerOf stream.now servers.old.0 × IsServerOf command.now servers.old.1 }
{
    for step in table {
        if !does(
            party, servers, links, stream, command, ops, file, step, steps,
        ) {
            return false;
        }
    }
    true
}

// A block with its two proxies.
#[derive(Drop)]
struct Line {
    block: Block,
    client: Proxy,
    server: Server,
}

// A new block of so many frames, on which nothing was done.
fn new_line(alloc: Global, frames: u32) -> Result<Line, Memory>
    requires { (1 ≤ frames) × (frames ≤ 65536) }
    ensures sizes { IfOk result (λ l. (l.block.shape.frames ≡ frames) × (l.block.shape.base ≡ 0) × (l.block.shape.wrap ≡ 0)) }
    ensures client { IfOk result (λ l. IsClientOf l.block l.client) }
    ensures kept { IfOk result (λ l. (l.client.flushes ≡ 0) × (l.client.released ≡ 0)) }
    ensures server { IfOk result (λ l. IsServerOf l.block l.server) }
{
    let (block, client, server) = Block::make(alloc, frames, 0)?;
    let client = Proxy::with(client, &block);
    let server = Server::with(server, &block);
    Ok(Line {
        block,
        client,
        server,
    })
}

// A client on two blocks, and the servers of both.
#[derive(Drop)]
struct Sides {
    stream: Block,
    command: Block,
    party: Party,
    servers: (Server, Server),
}

// A new client on new blocks, with so many frames in the stream's. It can do the work of ops for which its file and its block have room.
fn new_sides(alloc: Global, frames: u32) -> Result<Sides, Memory>
    requires { (1 ≤ frames) × (frames ≤ 65536) }
    ensures track { IfOk result (λ s. s.party.track ≡ 0) }
    ensures clients { IfOk result (λ s. IsClientOf s.stream s.party.stream × IsClientOf s.command s.party.command) }
    ensures servers { IfOk result (λ s. IsServerOf s.stream s.servers.0 × IsServerOf s.command s.servers.1) }
    ensures work { (ops : List OpSeen) (count : ℕ) → frames_to_come ops ≤ count → count ≤ 4194304 → flushes_to_come ops ≤ 4294967294 → ((stream command : ℕ) → All (IsFittingOp stream command) ops) → IfOk result (λ s. CanWork ops count s.party) }
{
    let calls = Items::with_room(alloc, 64)?;
    let stream = new_line(alloc, frames)?;
    let command = new_line(alloc, 128)?;
    let party = Party {
        track: 0,
        client: Client::new(),
        stream: stream.client,
        command: command.client,
        calls,
    };
    Ok(Sides {
        stream: stream.block,
        command: command.block,
        party,
        servers: (stream.server, command.server),
    })
}

// The sides of a client, and what its links have besides.
#[derive(Drop)]
struct Stage {
    sides: Sides,
    joints: Joints,
}

// New sides with new joints, with what new sides ensure.
fn new_stage(alloc: Global, frames: u32) -> Result<Stage, Memory>
    requires { (1 ≤ frames) × (frames ≤ 65536) }
    ensures track { IfOk result (λ s. s.sides.party.track ≡ 0) }
    ensures clients { IfOk result (λ s. IsClientOf s.sides.stream s.sides.party.stream × IsClientOf s.sides.command s.sides.party.command) }
    ensures servers { IfOk result (λ s. IsServerOf s.sides.stream s.sides.servers.0 × IsServerOf s.sides.command s.sides.servers.1) }
    ensures work { (ops : List OpSeen) (count : ℕ) → frames_to_come ops ≤ count → count ≤ 4194304 → flushes_to_come ops ≤ 4294967294 → ((stream command : ℕ) → All (IsFittingOp stream command) ops) → IfOk result (λ s. CanWork ops count s.sides.party) }
{
    let sides = new_sides(alloc, frames)?;
    let Ok(joints) = join(alloc, from_ref(&sides.stream), 2, 1) else {
        drop(sides);
        return Err(Memory);
    };
    Ok(Stage { sides, joints })
}

// Whether each step of a table does what it says, by a new client on new blocks, with so many frames in the stream's.
fn plays_in<L: Ledger>(
    blank: Blank,
    alloc: Global,
    frames: u32,
    ops: &[Op],
    file: &[Frame],
    table: &[Step],
) -> Result<bool, Memory>
    requires ledger { (blank.name ≡ L.name) × (blank.parts ≡ L.parts) × (0 < blank.parts) }
    requires frames { (1 ≤ frames) × (frames ≤ 65536) }
    requires file { (frames_to_come ops.now ≤ length file.now) × (length file.now ≤ 4194304) × (flushes_to_come ops.now ≤ 4294967294) }
    requires fits { (stream command : ℕ) → All (IsFittingOp stream command) ops.now }
{
    let mut steps = Steps::<L>::start(blank);
    let mut stage = new_stage(alloc, frames)?;
    let streams = from_ref(&stage.sides.stream);
    let commands = from_ref(&stage.sides.command);
    let links = Links {
        queue: &stage.joints.queue,
        streams,
        commands,
        pipe: &stage.joints.pipe,
        report: &stage.joints.report,
    };
    let told = all_do(
        &mut stage.sides.party,
        &mut stage.sides.servers,
        &links,
        &stage.sides.stream,
        &stage.sides.command,
        ops,
        file,
        table,
        &mut steps,
    );
    drop(stage);
    Ok(told)
}

fn plays(
    alloc: Global,
    frames: u32,
    ops: &[Op],
    file: &[Frame],
    table: &[Step],
) -> Result<bool, Memory>
    requires frames { (1 ≤ frames) × (frames ≤ 65536) }
    requires file { (frames_to_come ops.now ≤ length file.now) × (length file.now ≤ 4194304) × (flushes_to_come ops.now ≤ 4294967294) }
    requires fits { (stream command : ℕ) → All (IsFittingOp stream command) ops.now }
{
    plays_in::<Brand>(Blank::new(1), alloc, frames, ops, file, table)
}

// A life on a block of two frames. The START is settled in the second turn; the write of three frames finds it full after two, and goes on in the third turn, where a START is owed first, and the yield ends the turn. The drain waits for the stop.
const LIFE: [Op; 8] = [
    Op::OpenTrack,
    Op::Start,
    Op::Write { count: 3 },
    Op::Yield,
    Op::Gain { left: 3, right: 2 },
    Op::Stop,
    Op::Drain,
    Op::Remove,
];

const LIVES: [Step; 13] = [
    Step::Turn(&[
        ClientCall::Sent {
            front: 0,
            code: OPEN,
            argument: 0,
        },
        ClientCall::Sent {
            front: 0,
            code: START,
            argument: 0,
        },
        ClientCall::Status { word: 0 },
    ]),
    Step::Obeys(2),
    Step::Tells(0x202),
    Step::Turn(&[
        ClientCall::Status { word: 0x202 },
        ClientCall::Put { front: 0, count: 2 },
        ClientCall::Cleared { flags: 0 },
        ClientCall::Full { front: 0 },
    ]),
    Step::Takes(1),
    Step::Flags(DISABLED),
    Step::Turn(&[
        ClientCall::Put { front: 1, count: 1 },
        ClientCall::Cleared { flags: 8 },
        ClientCall::Sent {
            front: 4,
            code: START,
            argument: 0,
        },
    ]),
    Step::Turn(&[
        ClientCall::Gain { word: 0x20003 },
        ClientCall::Sent {
            front: 4,
            code: STOP,
            argument: 3,
        },
        ClientCall::Status { word: 0x202 },
    ]),
    Step::Obeys(2),
    Step::Tells(0x408),
    Step::Turn(&[
        ClientCall::Status { word: 0x408 },
        ClientCall::Sent {
            front: 8,
            code: REMOVE,
            argument: 0,
        },
    ]),
    Step::Ended,
    Step::Turn(&[]),
];

// A write that finds INVALID leaves one REMOVE to send, and nothing after it.
const DYING: [Op; 3] = [Op::OpenTrack, Op::Write { count: 1 }, Op::Yield];

const DIES: [Step; 4] = [
    Step::Flags(INVALID),
    Step::Turn(&[
        ClientCall::Sent {
            front: 0,
            code: OPEN,
            argument: 0,
        },
        ClientCall::Dead { flags: 4 },
        ClientCall::Sent {
            front: 0,
            code: REMOVE,
            argument: 0,
        },
    ]),
    Step::Ended,
    Step::Turn(&[]),
];

// The client pokes rear of the command block, which it keeps itself, and then front of the stream's, which shuts its proxy.
const HOSTILE: [Op; 4] = [
    Op::OpenTrack,
    Op::Poke {
        command: true,
        word: 1,
        value: 5,
    },
    Op::Poke {
        command: false,
        word: 0,
        value: 9,
    },
    Op::Write { count: 1 },
];

const POKES: [Step; 2] = [
    Step::Turn(&[
        ClientCall::Sent {
            front: 0,
            code: OPEN,
            argument: 0,
        },
        ClientCall::Poke {
            command: true,
            word: 1,
            value: 5,
        },
        ClientCall::Poke {
            command: false,
            word: 0,
            value: 9,
        },
        ClientCall::Corrupt { front: 9, rear: 0 },
        ClientCall::Sent {
            front: 0,
            code: REMOVE,
            argument: 0,
        },
    ]),
    Step::Ended,
];

// Seventy gains take two turns.
const BUSY: [Op; 70] = [Op::Gain { left: 1, right: 1 }; 70];

const GAINS: [Step; 3] = [Step::Makes(64), Step::Makes(6), Step::Makes(0)];

#[test]
fn a_client_lives_and_drains(rt: HostRuntime) {
    assert!(rt; plays(rt.alloc(), 2, &LIFE, &[SILENCE; 3], &LIVES) == Ok(true));
}

#[test]
fn a_client_ends_with_its_block(rt: HostRuntime) {
    assert!(rt; plays(rt.alloc(), 2, &DYING, &[SILENCE; 1], &DIES) == Ok(true));
    assert!(rt; plays(rt.alloc(), 2, &HOSTILE, &[SILENCE; 1], &POKES) == Ok(true));
}

#[test]
fn a_turn_is_cut_after_64_calls(rt: HostRuntime) {
    assert!(rt; plays(rt.alloc(), 2, &BUSY, &[], &GAINS) == Ok(true));
}
