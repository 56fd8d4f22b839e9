//! One driver for the tests by calls: a table of steps, with what each of them answers.
ghost use Rattle.std.specs.Prelude.{◌≡◌, ◌+◌, ◌<◌, ◌≤◌, ◌^◌, IfOk, IfSome, OnOk, length, false, []};
ghost use Rattle.af_client.specs.Order.{IsClientOf};
ghost use Rattle.af_link.specs.Names.{IsStreamOf};
ghost use Rattle.af_link.specs.PipeEnds.{in_made};
ghost use Rattle.af_fast_tests.specs.Ready.{AreClientsOf, AreLines, AreWaiting, IsLine, IsTable};

use crate::tests::{
    BEFORE, Ends, FRAMES, Pushing, Turned, attach, begin, detach, forget, log_is, push_command,
    turn,
};
use af_base::{Command, Cycle, CycleEntry, FastLog, Frame, Memory, Push, SLOTS, SlotReport, Steps};
use af_cblk::Block;
use af_client::{Client, Wrote};
use af_link::{Links, PipeIn};
use af_model::mix_entry;
use af_server::Server;
use std::alloc::Global;
use std::marker::Brand;
use std::mem::drop;
use std::sync::ledger::{Blank, Ledger};

/// The first eight multiples of a word, as frames.
pub(crate) fn frames_of(word: u32) -> [Frame; 8] {
    let mut frames = [BEFORE; 8];
    let mut next = 0u32;
    for frame in frames.iter_mut() {
        next = next.wrapping_add(word);
        *frame = Frame::unpack(next);
    }
    frames
}

/// The frames of a block, and its first position.
#[derive(Clone, Copy)]
pub(crate) struct Size {
    pub frames: u32,
    pub base: u32,
}

/// Three blocks of eight frames.
pub(crate) const THREE: [Size; 3] = [Size { frames: 8, base: 0 }; 3];

/// What a test does next. Frames are the first so many multiples of a word.
#[derive(Clone, Copy)]
pub(crate) enum Step {
    /// Attaches the proxy of a track, if it is with the test and the slot is free.
    Attach {
        slot: u32,
        track: u32,
        mono: bool,
        scale: u16,
    },
    Detach {
        slot: u32,
    },
    /// Takes the proxy of a slot back, from where it may be attached again.
    TakeBack {
        slot: u32,
    },
    /// Sets the command, and pushes.
    Push {
        command: Command,
    },
    /// Looks whether the last state was acknowledged.
    Ack,
    Write {
        track: usize,
        word: u32,
        count: usize,
    },
    Gains {
        track: usize,
        word: u32,
    },
    Flush {
        track: usize,
    },
    /// Stores a rear out of turn.
    Poke {
        track: usize,
        rear: u32,
    },
    /// Clears DISABLED, and answers the flags before.
    Clear {
        track: usize,
    },
    Put {
        word: u32,
        count: usize,
    },
    /// Forgets a log that has so many entries.
    Forget {
        most: usize,
    },
    Cycle,
    Meet,
}

/// What a step answered.
#[derive(Clone, Copy, PartialEq, Eq)]
pub(crate) enum Told {
    Done,
    Is { so: bool },
    Pushed { push: Push },
    Wrote { wrote: Wrote },
    Word { word: u32 },
    Turned { turned: Turned },
}

/// A step with what it is to answer.
pub(crate) type Row = (Step, Told);

// The ends, the clients, the proxies that are with the test, and how often it pushed.
#[derive(Drop)]
struct Table {
    ends: Ends,
    clients: Vec<Client>,
    servers: Vec<Option<Server>>,
    pushes: u32,
}

// Takes the proxy of a track, if it is with the test.
fn take_server(servers: &mut [Option<Server>], streams: &[Block], track: u32) -> Option<Server>
    requires { AreWaiting streams.now servers.old }
    ensures waiting { AreWaiting streams.now servers.new }
    ensures stream { IfSome result (λ s. IsStreamOf streams.now track s) }
{
    let track = track as usize;
    if track >= servers.len() {
        return None;
    }
    servers[track].take()
}

// Gives a proxy to the test.
fn put_server(servers: &mut [Option<Server>], streams: &[Block], track: u32, server: Server)
    requires waiting { AreWaiting streams.now servers.old }
    requires stream { IsStreamOf streams.now track server }
    ensures waiting { AreWaiting streams.now servers.new }
{
    let track = track as usize;
    if track < servers.len() {
        servers[track] = Some(server);
    }
}

// What a client does on its block.
fn client_does<L: Ledger>(
    client: &mut Client,
    block: &Block,
    step: Step,
    steps: &mut Steps<L>,
) -> Told
    requires { IsClientOf block.now client.old }
    ensures { IsClientOf block.now client.new }
{
    let _wrap = block.wrap();
    match step {
        Step::Write { word, count, .. } if count >= 1 && client.released() < 100_000 => {
            let frames = frames_of(word);
            let wrote = client.write(block, &frames[..count.min(8)], steps);
            return Told::Wrote { wrote };
        }
        Step::Gains { word, .. } => client.set_gains(block, word, steps),
        Step::Flush { .. } if client.flushes() < 60_000 => {
            client.flush(block, steps);
        }
        Step::Poke { rear, .. } => client.poke(block, 1, rear, steps),
        _ => {
            let word = client.clear_disabled(block, steps);
            return Told::Word { word };
        }
    }
    Told::Done
}

// What the client of a track does on its block.
fn track_does<L: Ledger>(
    clients: &mut [Client],
    streams: &[Block],
    track: usize,
    step: Step,
    steps: &mut Steps<L>,
) -> Told
    requires { AreClientsOf streams.now clients.old }
    ensures { AreClientsOf streams.now clients.new }
{
    if track >= streams.len() {
        return Told::Done;
    }
    client_does(&mut clients[track], &streams[track], step, steps)
}

// Puts the first of these frames, as many as there is room for.
fn put_some<L: Ledger>(from: &mut PipeIn, links: &Links<'_>, frames: &[Frame], steps: &mut Steps<L>)
    requires { in_made from.old ≡ links.now.pipe.now }
    ensures { in_made from.new ≡ links.now.pipe.now }
{
    let room = from.room(links.pipe, steps) as usize;
    from.put(links.pipe, &frames[..frames.len().min(room)], steps);
}

// What the mutator does.
fn mutator_does<L: Ledger>(
    mutator: &mut Pushing,
    links: &Links<'_>,
    step: Step,
    steps: &mut Steps<L>,
) -> Told
    requires idle { mutator.old.editing ≡ false }
    requires queue { mutator.old.past.queue ≡ links.now.queue.now }
    requires few { mutator.old.past.number < 1000000 }
    ensures idle { mutator.new.editing ≡ false }
    ensures same { (mutator.new.past.queue ≡ mutator.old.past.queue) × (mutator.new.past.key ≡ mutator.old.past.key) }
    ensures few { mutator.new.past.number ≤ mutator.old.past.number + 1 }
{
    match step {
        Step::Detach { slot } if 1 <= slot && slot < SLOTS as u32 => Told::Is {
            so: detach(mutator, slot),
        },
        Step::Push { command } => Told::Pushed {
            push: push_command(mutator, links, command, steps),
        },
        _ => Told::Is {
            so: mutator.acked(links.queue, steps),
        },
    }
}

impl Table {
    // Attaches the proxy of a track.
    fn attach(&mut self, links: &Links<'_>, slot: u32, track: u32, mono: bool, scale: u16) -> bool
        requires scale { scale ≤ 4096 }
        requires table { IsTable links.now self.old.ends.mutator self.old.ends.mixer self.old.ends.reader self.old.ends.pipe self.old.clients.items self.old.servers.items self.old.pushes }
        ensures table { IsTable links.now self.new.ends.mutator self.new.ends.mixer self.new.ends.reader self.new.ends.pipe self.new.clients.items self.new.servers.items self.new.pushes }
    {
        if slot < 1 || slot >= SLOTS as u32 || !self.ends.mutator.is_free(slot) {
            return false;
        }
        match take_server(&mut self.servers, links.streams, track) {
            Some(server) => attach(
                &mut self.ends.mutator,
                links,
                slot,
                mono,
                scale,
                track,
                server,
            ),
            None => false,
        }
    }

    // Takes the proxy of a slot back.
    fn take_back(&mut self, links: &Links<'_>, slot: u32) -> bool
        requires { IsTable links.now self.old.ends.mutator self.old.ends.mixer self.old.ends.reader self.old.ends.pipe self.old.clients.items self.old.servers.items self.old.pushes }
        ensures { IsTable links.now self.new.ends.mutator self.new.ends.mixer self.new.ends.reader self.new.ends.pipe self.new.clients.items self.new.servers.items self.new.pushes }
    {
        if slot < 1 || slot >= SLOTS as u32 {
            return false;
        }
        let track = self.ends.mutator.draft().slots[slot as usize].track;
        let Some(server) = self.ends.mutator.take_back(slot) else {
            return false;
        };
        put_server(&mut self.servers, links.streams, track, server);
        true
    }

    // Makes a step of the mutator.
    fn push<L: Ledger>(&mut self, links: &Links<'_>, step: Step, steps: &mut Steps<L>) -> Told
        requires { IsTable links.now self.old.ends.mutator self.old.ends.mixer self.old.ends.reader self.old.ends.pipe self.old.clients.items self.old.servers.items self.old.pushes }
        ensures { IsTable links.now self.new.ends.mutator self.new.ends.mixer self.new.ends.reader self.new.ends.pipe self.new.clients.items self.new.servers.items self.new.pushes }
    {
        if self.pushes > 1000 {
            return Told::Done;
        }
        self.pushes += 1;
        mutator_does(&mut self.ends.mutator, links, step, steps)
    }

    // All ends meet.
    fn meet<L: Ledger>(&mut self, links: &Links<'_>, steps: &mut Steps<L>)
        requires { IsTable links.now self.old.ends.mutator self.old.ends.mixer self.old.ends.reader self.old.ends.pipe self.old.clients.items self.old.servers.items self.old.pushes }
        ensures { IsTable links.now self.new.ends.mutator self.new.ends.mixer self.new.ends.reader self.new.ends.pipe self.new.clients.items self.new.servers.items self.new.pushes }
    {
        let Ends {
            mutator,
            mixer,
            reader,
            pipe,
        } = &mut self.ends;
        mixer.meet(links, mutator, reader, pipe, steps);
    }

    // Makes a step.
    fn play<L: Ledger>(&mut self, links: &Links<'_>, step: Step, steps: &mut Steps<L>) -> Told
        requires { IsTable links.now self.old.ends.mutator self.old.ends.mixer self.old.ends.reader self.old.ends.pipe self.old.clients.items self.old.servers.items self.old.pushes }
        ensures { IsTable links.now self.new.ends.mutator self.new.ends.mixer self.new.ends.reader self.new.ends.pipe self.new.clients.items self.new.servers.items self.new.pushes }
    {
        match step {
            Step::Attach {
                slot,
                track,
                mono,
                scale,
            } => Told::Is {
                so: self.attach(links, slot, track, mono, scale.min(0x1000)),
            },
            Step::TakeBack { slot } => Told::Is {
                so: self.take_back(links, slot),
            },
            Step::Write { track, .. }
            | Step::Gains { track, .. }
            | Step::Flush { track }
            | Step::Poke { track, .. }
            | Step::Clear { track } => track_does(
                &mut self.clients,
                links.streams,
                track,
                step,
                steps,
            ),
            Step::Put { word, count } => {
                let frames = frames_of(word);
                put_some(&mut self.ends.pipe, links, &frames[..count.min(8)], steps);
                Told::Done
            }
            Step::Forget { most } => {
                forget(&mut self.ends, links, most);
                Told::Done
            }
            Step::Cycle => Told::Turned {
                turned: turn(&mut self.ends, links, steps),
            },
            Step::Meet => {
                self.meet(links, steps);
                Told::Done
            }
            _ => self.push(links, step, steps),
        }
    }
}

// Whether a cycle wrote the mix of the last entry by its definition, if it mixed.
fn is_mix(log: &FastLog, told: Told) -> bool {
    let Told::Turned { turned } = told else {
        return true;
    };
    let last = log.len().saturating_sub(1);
    let Some(entry) = log.entry(last) else {
        return turned.cycle != Cycle::Mixed;
    };
    if entry.cycle != Cycle::Mixed || turned.cycle != Cycle::Mixed {
        return turned.cycle != Cycle::Mixed;
    }
    let mut mixed = [BEFORE; FRAMES];
    mix_entry(log, last, &mut mixed);
    mixed == turned.out
}

// Makes the steps of a table. It answers how many steps answered what they should, each cycle with the mix of its entry, and whether the log is right, if entries are given.
fn play_all<L: Ledger>(
    table: &mut Table,
    links: &Links<'_>,
    rows: &[Row],
    entries: &[CycleEntry],
    frames: &[Frame],
    steps: &mut Steps<L>,
) -> (usize, bool)
    requires { IsTable links.now table.old.ends.mutator table.old.ends.mixer table.old.ends.reader table.old.ends.pipe table.old.clients.items table.old.servers.items table.old.pushes }
{
    let mut right = 0;
    for (step, wanted) in rows {
        let told = table.play(links, *step, steps);
        right += usize::from(told == *wanted && is_mix(table.ends.mixer.log(), told));
    }
    let logged = entries.is_empty() || log_is(table.ends.mixer.log(), entries, frames);
    (right, logged)
}

/// A block of some frames with its proxies.
pub(crate) fn line(alloc: Global, size: Size) -> Result<(Block, Client, Server), Memory>
    ensures { IfOk result IsLine }
{
    let (block, client, server) = Block::make(alloc, size.frames.max(1).min(65536), size.base)?;
    let client = Client::with(client, &block);
    let server = Server::with(server, &block);
    Ok((block, client, server))
}

// The blocks of some sizes, their clients and their servers.
type Lines = (Vec<Block>, Vec<Client>, Vec<Option<Server>>);

// Adds blocks of these sizes to empty lists, with their clients and servers.
fn add_lines(
    alloc: Global,
    sizes: &[Size],
    streams: &mut Vec<Block>,
    clients: &mut Vec<Client>,
    servers: &mut Vec<Option<Server>>,
) -> Result<(), Memory>
    requires { (streams.old.items ≡ []) × (clients.old.items ≡ []) × (servers.old.items ≡ []) }
    ensures { OnOk result (AreLines streams.new.items clients.new.items servers.new.items) }
{
    for size in sizes {
        let (block, client, server) = line(alloc, *size)?;
        streams.push(block)?;
        clients.push(client)?;
        servers.push(Some(server))?;
    }
    Ok(())
}

fn lines(alloc: Global, sizes: &[Size]) -> Result<Lines, Memory>
    ensures { IfOk result (λ r. AreLines r.0.items r.1.items r.2.items) }
{
    let mut streams = Vec::new(alloc);
    let mut clients = Vec::new(alloc);
    let mut servers = Vec::new(alloc);
    let added = add_lines(alloc, sizes, &mut streams, &mut clients, &mut servers);
    if added.is_ok() {
        return Ok((streams, clients, servers));
    }
    drop(servers);
    drop(clients);
    drop(streams);
    Err(Memory)
}

// Makes the steps of a table over new blocks of these sizes.
fn plays_in<L: Ledger>(
    alloc: Global,
    blank: Blank,
    cycles: usize,
    sizes: &[Size],
    rows: &[Row],
    entries: &[CycleEntry],
    frames: &[Frame],
) -> Result<(usize, bool), Memory>
    requires name { blank.name ≡ L.name }
    requires parts { (blank.parts ≡ L.parts) × (0 < blank.parts) }
    requires cycles { (1 ≤ cycles) × (cycles ≤ 1000) }
{
    let mut steps = Steps::<L>::start(blank);
    let (streams, clients, servers) = lines(alloc, sizes)?;
    let (shared, ends) = begin(alloc, &streams, cycles, FRAMES)?;
    let links = shared.links(&streams);
    let mut table = Table {
        ends,
        clients,
        servers,
        pushes: 0,
    };
    let told = play_all(&mut table, &links, rows, entries, frames, &mut steps);
    drop(table);
    drop(shared);
    Ok(told)
}

/// Makes the steps of a table over blocks of these sizes, with a mixer of so many entries on four frames a cycle. It answers how many steps answered what they should, and whether the log then has these entries and frames, if entries are given.
pub(crate) fn plays(
    alloc: Global,
    cycles: usize,
    sizes: &[Size],
    rows: &[Row],
    entries: &[CycleEntry],
    frames: &[Frame],
) -> Result<(usize, bool), Memory>
    requires { (1 ≤ cycles) × (cycles ≤ 1000) }
{
    plays_in::<Brand>(alloc, Blank::new(1), cycles, sizes, rows, entries, frames)
}
