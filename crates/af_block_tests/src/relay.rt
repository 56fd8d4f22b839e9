//! Frames through a block, from a client on one thread to a server on another.
ghost use Rattle.std.specs.Prelude.{◌≡◌, ◌+◌, ◌++◌, ◌^◌, ◌<◌, ◌≤◌, true, [], map, take, length, vec_len, IfOk, OnOk, ◌⊎◌};
ghost use Rattle.af_base.specs.Sample.{packed_word};
ghost use Rattle.af_model.specs.Fates.{drops_none};
ghost use Rattle.af_model.specs.History.{is_lawful};
ghost use Rattle.af_client.specs.Order.{IsClientOf};
ghost use Rattle.af_server.specs.Order.{IsServerOf};
ghost use Rattle.af_block_tests.specs.Relay.{Sent, Received, count_of, IsFlushed};

use crate::calls::new_block;
use af_base::{Frame, Memory, Seen, Steps};
use af_cblk::Block;
use af_client::{Client, Wrote};
use af_server::Server;
use std::alloc::Global;
use std::marker::Brand;
use std::mem::drop;
use std::sync::ledger::{Blank, Ledger};
use std::test::*;
use std::thread::{Threads, join, yield_now};

// The most rounds of each thread. A round makes at most three calls, so a thread makes at most 999,999.
const MOST: u32 = 333_333;

// Writes some of the frames, and answers how many.
fn send_some<L: Ledger>(
    block: &Block,
    client: &mut Client,
    rest: &[Frame],
    steps: &mut Steps<L>,
) -> usize
    requires ready { IsClientOf block.now client.old }
    requires some { 1 ≤ length rest.now }
    requires few { client.old.released < 2 ^ 62 }
    ensures ready { IsClientOf block.now client.new }
    ensures lawful { is_lawful client.old.pass.part.events ≡ true → is_lawful client.new.pass.part.events ≡ true }
    ensures sent { client.new.pass.part.frames ≡ client.old.pass.part.frames ++ map packed_word (take result rest.now) }
    ensures count { (result ≤ length rest.now) × (client.new.released ≡ client.old.released + result) }
{
    match client.write(block, rest, steps) {
        Wrote::Put { count, .. } => count as usize,
        Wrote::Full { .. } => {
            yield_now();
            0
        }
        Wrote::Dead { .. } => 0,
        Wrote::Corrupt { .. } => 0,
    }
}

// Asks for a flush, and sets other gains.
fn stir<L: Ledger>(block: &Block, client: &mut Client, gains: u32, steps: &mut Steps<L>)
    requires ready { IsClientOf block.now client.old }
    ensures ready { IsClientOf block.now client.new }
    ensures lawful { is_lawful client.old.pass.part.events ≡ true → is_lawful client.new.pass.part.events ≡ true }
    ensures same { (client.new.pass.part.frames ≡ client.old.pass.part.frames) × (client.new.released ≡ client.old.released) }
{
    client.set_gains(block, gains, steps);
    let _wrap = block.wrap();
    if client.flushes() < 60_000 {
        client.flush(block, steps);
    }
}

// Asks for a flush and sets other gains, if it is time for it.
fn stir_at<L: Ledger>(
    block: &Block,
    client: &mut Client,
    now: bool,
    gains: u32,
    steps: &mut Steps<L>,
)
    requires ready { IsClientOf block.now client.old }
    ensures ready { IsClientOf block.now client.new }
    ensures lawful { is_lawful client.old.pass.part.events ≡ true → is_lawful client.new.pass.part.events ≡ true }
    ensures same { (client.new.pass.part.frames ≡ client.old.pass.part.frames) × (client.new.released ≡ client.old.released) }
{
    if now {
        stir(block, client, gains, steps);
    }
}

// Writes the frames in order, as far as its calls go. A busy client flushes and sets gains before about every other call: since a call puts at most three of ten thousand frames, it asks for more than a thousand flushes.
fn send_in<L: Ledger>(
    blank: Blank,
    block: &Block,
    mut client: Client,
    frames: &[Frame],
    busy: bool,
) -> Client
    requires ledger { (blank.name ≡ L.name) × (blank.parts ≡ L.parts) × (0 < blank.parts) }
    requires ready { IsClientOf block.now client }
    requires new { (client.pass.part.frames ≡ []) × (client.pass.part.events ≡ []) × (client.released ≡ 0) }
    requires few { length frames.now ≤ 65536 }
    ensures ready { IsClientOf block.now result }
    ensures sent { Sent frames.now result.pass.part }
{
    let mut steps = Steps::<L>::start(blank);
    let mut next: usize = 0;
    let mut seed: u32 = 1;
    for _ in 0..MOST {
        if next >= frames.len() {
            break;
        }
        seed = seed.wrapping_mul(1_664_525).wrapping_add(1_013_904_223);
        let now = busy && seed < 0x8000_0000;
        stir_at(block, &mut client, now, seed, &mut steps);
        next += send_some(block, &mut client, &frames[next..], &mut steps);
    }
    client
}

fn send(block: &Block, client: Client, frames: &[Frame], busy: bool) -> Client
    requires ready { IsClientOf block.now client }
    requires new { (client.pass.part.frames ≡ []) × (client.pass.part.events ≡ []) × (client.released ≡ 0) }
    requires few { length frames.now ≤ 65536 }
    ensures ready { IsClientOf block.now result }
    ensures sent { Sent frames.now result.pass.part }
{
    send_in::<Brand>(Blank::new(1), block, client, frames, busy)
}

// Looks for up to four frames, and takes them.
fn take_some<L: Ledger>(
    block: &Block,
    server: &mut Server,
    into: &mut [Frame],
    steps: &mut Steps<L>,
) -> Seen
    requires ready { IsServerOf block.now server.old }
    requires room { length into.old ≡ 4 }
    ensures ready { IsServerOf block.now server.new }
    ensures taken { server.new.pass.part.frames ≡ server.old.pass.part.frames ++ map packed_word (take (count_of result) into.new) }
    ensures few { count_of result ≤ 4 }
    ensures clean { drops_none server.old.pass.part.events ≡ true → IsFlushed result ⊎ (drops_none server.new.pass.part.events ≡ true) }
{
    let seen = server.look(block, 4, steps).seen;
    match seen {
        Seen::Frames { count } => server.take(block, &mut into[..count as usize], steps),
        Seen::Flushed { .. } => (),
        Seen::Empty => (),
        Seen::Shut { .. } => (),
        Seen::Absent => (),
    }
    seen
}

// Whether each of these frames has the number of its position.
fn lie_in_place(taken: &[Frame], at: u64) -> bool {
    let mut position = at;
    for frame in taken {
        if u64::from(frame.pack()) != position {
            return false;
        }
        position = position.wrapping_add(1);
    }
    true
}

// Takes frames, as far as its calls go. It answers whether no flush was noticed, and whether each frame lay in place and each new flush count was above the one before.
fn receive_in<L: Ledger>(
    blank: Blank,
    block: &Block,
    server: &mut Server,
    all: &mut Vec<Frame>,
    total: u64,
) -> Result<(bool, bool), Memory>
    requires ledger { (blank.name ≡ L.name) × (blank.parts ≡ L.parts) × (0 < blank.parts) }
    requires ready { IsServerOf block.now server.old }
    requires new { (server.old.pass.part.frames ≡ []) × (server.old.pass.part.events ≡ []) × (all.old.items ≡ []) }
    ensures ready { OnOk result (IsServerOf block.now server.new) }
    ensures received { IfOk result (λ r. Received r.0 all.new.items server.new.pass.part) }
{
    let mut steps = Steps::<L>::start(blank);
    let mut clean = true;
    let mut in_place = true;
    for _ in 0..MOST {
        let at = server.consumed();
        let flush = server.flush_seen();
        if at >= total {
            break;
        }
        let mut into = [Frame::unpack(0); 4];
        match take_some(block, server, &mut into, &mut steps) {
            Seen::Frames { count } => {
                let taken = &into[..count as usize];
                in_place = in_place && lie_in_place(taken, at);
                if all.extend_from_slice(taken).is_err() {
                    return Err(Memory);
                }
            }
            Seen::Flushed { .. } => {
                clean = false;
                in_place = in_place && server.flush_seen() > flush;
            }
            _ => yield_now(),
        }
    }
    Ok((clean, in_place))
}

fn receive(
    block: &Block,
    mut server: Server,
    alloc: Global,
    total: u64,
) -> Result<(Server, Vec<Frame>, bool, bool), Memory>
    requires ready { IsServerOf block.now server }
    requires new { (server.pass.part.frames ≡ []) × (server.pass.part.events ≡ []) }
    ensures ready { IfOk result (λ r. IsServerOf block.now r.0) }
    ensures received { IfOk result (λ r. Received r.2 r.1.items r.0.pass.part) }
{
    let mut all = Vec::new(alloc);
    let (clean, in_place) = receive_in::<Brand>(
        Blank::new(1),
        block,
        &mut server,
        &mut all,
        total,
    )?;
    Ok((server, all, clean, in_place))
}

// Once both are back: if no flush was noticed, what was taken begins what was written.
fn compare_in<L: Ledger>(
    blank: Blank,
    block: &Block,
    mut client: Client,
    mut server: Server,
    frames: &[Frame],
    all: &Vec<Frame>,
    clean: bool,
)
    requires ledger { (blank.name ≡ L.name) × (blank.parts ≡ L.parts) × (0 < blank.parts) }
    requires client { IsClientOf block.now client }
    requires server { IsServerOf block.now server }
    requires sent { Sent frames.now client.pass.part }
    requires received { Received clean all.now.items server.pass.part }
    ensures { clean ≡ true → map packed_word all.now.items ≡ take (vec_len all.now) (map packed_word frames.now) }
{
    let mut steps = Steps::<L>::start(blank);
    server.meet(block, client.pass(), &mut steps);
    drop(server);
    drop(client);
}

// What one thread took of the frames that another wrote: a beginning of them if no flush was noticed.
fn relay<R: Threads + Sync>(
    rt: &R,
    alloc: Global,
    positional: bool,
    frames: &[Frame],
    busy: bool,
) -> Result<(Vec<Frame>, bool, bool), Memory>
    requires few { length frames.now ≤ 65536 }
    ensures { IfOk result (λ r. r.1 ≡ true → map packed_word r.0.items ≡ take (vec_len r.0) (map packed_word frames.now)) }
{
    let (block, client, server) = new_block(alloc, 3, 0, positional)?;
    let shared = &block;
    let total = frames.len() as u64;
    let client = Client::with(client, shared);
    let server = Server::with(server, shared);
    let (client, received) = join(
        rt,
        move || -> Client
            requires { IsClientOf shared.now client × (client.pass.part.frames ≡ []) × (client.pass.part.events ≡ []) × (client.released ≡ 0) × (length frames.now ≤ 65536) }
            ensures { IsClientOf shared.entry.now result × Sent frames.entry.now result.pass.part }
        { send(shared, client, frames, busy) },
        move || -> Result<(Server, Vec<Frame>, bool, bool), Memory>
            requires { IsServerOf shared.now server × (server.pass.part.frames ≡ []) × (server.pass.part.events ≡ []) }
            ensures { IfOk result (λ r. IsServerOf shared.entry.now r.0 × Received r.2 r.1.items r.0.pass.part) }
        { receive(shared, server, alloc, total) },
    );
    let Ok((server, all, clean, in_place)) = received else {
        drop(client);
        drop(block);
        return Err(Memory);
    };
    compare_in::<Brand>(Blank::new(1), &block, client, server, frames, &all, clean);
    drop(block);
    Ok((all, clean, in_place))
}

// Ten thousand frames, each with its number as its word.
fn numbered(alloc: Global) -> Result<Vec<Frame>, Memory>
    ensures { IfOk result (λ v. vec_len v ≡ 10000) }
{
    let mut frames = Vec::new(alloc);
    for number in 0..10_000u32 {
        if frames.push(Frame::unpack(number)).is_err() {
            return Err(Memory);
        }
    }
    Ok(frames)
}

// Whether the frames came in place, and no flush was noticed but by a busy client.
fn comes_in_place<R: Threads + Sync>(
    rt: &R,
    alloc: Global,
    positional: bool,
    busy: bool,
) -> Result<bool, Memory> {
    let frames = numbered(alloc)?;
    let relayed = relay(rt, alloc, positional, frames.as_slice(), busy);
    drop(frames);
    let (all, clean, in_place) = relayed?;
    drop(all);
    Ok(in_place && (clean || busy))
}

// On a block of either kind, with a client that only writes, and with one that flushes too.
#[test]
fn frames_come_in_order_from_another_thread(rt: HostRuntime) {
    for (positional, busy) in &[(false, false), (true, false), (false, true), (true, true)] {
        let found = comes_in_place(&rt, rt.alloc(), *positional, *busy);
        assert!(rt; found == Ok(true), "{positional} {busy}");
    }
}
