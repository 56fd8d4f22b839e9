//! One driver for the tests by calls: a table of steps over new blocks, with what each of them answers.
ghost use Rattle.std.specs.Prelude.{◌≡◌, ℕ, ◌+◌, ◌*◌, ◌<◌, ◌≤◌, ◌++◌, ◌∷◌, [], length, All, IfOk};
ghost use Rattle.af_link.specs.declared.links.Links.{Links as Linked};
ghost use Rattle.af_normal.specs.Making.{AreNew};
ghost use Rattle.af_normal_tests.specs.Testing.{AreLines, AreOthers, IsLine, IsWorld};

use crate::joints::join;
use crate::random_tests::runs_beside;
use crate::rows::Row;
use crate::stream_tests::new_block;
use crate::tests::{Others, World};
use af_base::{Memory, Steps};
use af_cblk::Block;
use af_client::Client;
use af_link::{Links, PipeIn, ReportCell, ReportReader, StreamNames, first_report};
use af_normal::{NormalMixer, TrackSetup, Tracks};
use af_server::Server;
use af_stateq::{Mutator, Queue};
use std::alloc::Global;
use std::marker::Brand;
use std::mem::drop;
use std::sync::ledger::{Blank, Ledger};

/// What a track is made of.
#[derive(Clone, Copy)]
pub(crate) struct Kind {
    pub fast: bool,
    pub mono: bool,
    pub frames: u32,
    /// A flush of its stream block carries its position.
    pub positional: bool,
}

/// A fast track of eight frames.
pub(crate) const FAST: Kind = Kind {
    fast: true,
    mono: false,
    frames: 8,
    positional: false,
};

/// The same by way of the normal mixer.
pub(crate) const NORMAL: Kind = Kind {
    fast: false,
    ..FAST
};

/// What the parties of a test share.
#[derive(Drop)]
pub(crate) struct Shared {
    queue: Queue<Server, StreamNames>,
    pipe: Block,
    report: ReportCell,
    streams: Vec<Block>,
    commands: Vec<Block>,
}

impl Shared {
    /// The links of a test.
    pub(crate) fn links(&self) -> Links<'_>
        ensures queue { result.queue.now ≡ self.now.queue }
        ensures streams { result.streams.now ≡ self.now.streams.items }
        ensures commands { result.commands.now ≡ self.now.commands.items }
        ensures pipe { result.pipe.now ≡ self.now.pipe }
        ensures report { result.report.now ≡ self.now.report }
    {
        Links {
            queue: &self.queue,
            streams: &self.streams,
            commands: &self.commands,
            pipe: &self.pipe,
            report: &self.report,
        }
    }
}

/// What a mixer and its world are made of.
#[derive(Drop)]
pub(crate) struct Parts {
    tracks: Tracks,
    mutator: Mutator<Server, StreamNames>,
    reader: ReportReader,
    from: PipeIn,
    others: Others,
}

// A block of some frames with its proxies.
fn line(alloc: Global, frames: u32, positional: bool) -> Result<(Block, Client, Server), Memory>
    ensures { IfOk result (λ l. IsLine l.0 l.1 l.2) }
{
    let (block, client, server) = new_block(alloc, frames, positional)?;
    let client = Client::with(client, &block);
    let server = Server::with(server, &block);
    Ok((block, client, server))
}

// The blocks of the tracks, their clients, and what the mixer is made of.
#[derive(Drop)]
struct Lines {
    streams: Vec<Block>,
    commands: Vec<Block>,
    clients: Vec<Client>,
    senders: Vec<Client>,
    tracks: Tracks,
}

// A block and its client are added behind others; its server is handed on.
fn put_line(
    blocks: &mut Vec<Block>,
    clients: &mut Vec<Client>,
    line: (Block, Client, Server),
) -> Result<Server, Memory>
    ensures block { IfOk result (λ _. blocks.new.items ≡ blocks.old.items ++ line.0 ∷ []) }
    ensures client { IfOk result (λ _. clients.new.items ≡ clients.old.items ++ line.1 ∷ []) }
    ensures server { IfOk result (λ server. server ≡ line.2) }
{
    let (block, client, server) = line;
    blocks.push(block)?;
    clients.push(client)?;
    Ok(server)
}

impl Lines {
    // Adds the blocks of a track, with its clients and its servers.
    fn add(&mut self, alloc: Global, kind: Kind) -> Result<(), Memory>
        ensures { (count : ℕ) → AreLines count self.old.streams.items self.old.commands.items self.old.clients.items self.old.senders.items self.old.tracks → IfOk result (λ _. AreLines (count + 1) self.new.streams.items self.new.commands.items self.new.clients.items self.new.senders.items self.new.tracks) }
    {
        let frames = line(alloc, kind.frames, kind.positional)?;
        let stream = put_line(&mut self.streams, &mut self.clients, frames)?;
        let commands = line(alloc, 128, false)?;
        let command = put_line(&mut self.commands, &mut self.senders, commands)?;
        self.tracks.push(TrackSetup {
            fast: kind.fast,
            mono: kind.mono,
            scale: 0x1000,
            stream,
            command,
        })?;
        Ok(())
    }
}

fn make_lines(alloc: Global, kinds: &[Kind]) -> Result<Lines, Memory>
    ensures { IfOk result (λ l. AreLines (length kinds.now) l.streams.items l.commands.items l.clients.items l.senders.items l.tracks) }
{
    let mut lines = Lines {
        streams: Vec::new(alloc),
        commands: Vec::new(alloc),
        clients: Vec::new(alloc),
        senders: Vec::new(alloc),
        tracks: Tracks::empty(alloc),
    };
    for kind in kinds {
        lines.add(alloc, *kind)?;
    }
    Ok(lines)
}

/// The parts of a mixer of one to 32 tracks, on `frames` frames a fast cycle and `normal` cycles a buffer, with all that it works on.
pub(crate) fn begin(
    alloc: Global,
    kinds: &[Kind],
    frames: u32,
    normal: u32,
) -> Result<(Shared, Parts), Memory>
    requires sizes { (1 ≤ frames) × (frames ≤ 1024) × (1 ≤ normal) × (normal ≤ 16) }
    ensures { (links : Linked) → IfOk result (λ r. links.queue.now ≡ r.0.queue → links.streams.now ≡ r.0.streams.items → links.commands.now ≡ r.0.commands.items → links.pipe.now ≡ r.0.pipe → links.report.now ≡ r.0.report
        → AreNew links frames normal r.1.tracks r.1.mutator r.1.reader r.1.from
        × (length r.1.tracks.settings ≡ length kinds.now) × All (λ setting. setting.scale ≤ 4096) r.1.tracks.settings
        × AreOthers links r.1.others.observer r.1.others.ends.0 r.1.others.ends.1 r.1.others.report r.1.others.streams.items r.1.others.commands.items) }
{
    let lines = make_lines(alloc, kinds)?;
    let joints = join(alloc, &lines.streams, frames, normal)?;
    let shared = Shared {
        queue: joints.queue,
        pipe: joints.pipe,
        report: joints.report,
        streams: lines.streams,
        commands: lines.commands,
    };
    let others = Others {
        observer: joints.observer,
        ends: joints.ends,
        report: first_report(),
        streams: lines.clients,
        commands: lines.senders,
    };
    let parts = Parts {
        tracks: lines.tracks,
        mutator: joints.mutator,
        reader: joints.reader,
        from: joints.from,
        others,
    };
    Ok((shared, parts))
}

impl Parts {
    /// The mixer, with the others.
    pub(crate) fn join(
        self,
        alloc: Global,
        links: &Links<'_>,
        frames: u32,
        normal: u32,
    ) -> Result<World, Memory>
        requires sizes { (1 ≤ frames) × (frames ≤ 1024) × (1 ≤ normal) × (normal ≤ 16) }
        requires count { (1 ≤ length self.tracks.settings) × (length self.tracks.settings ≤ 32) }
        requires scales { All (λ setting. setting.scale ≤ 4096) self.tracks.settings }
        requires new { AreNew links.now frames normal self.tracks self.mutator self.reader self.from }
        requires others { AreOthers links.now self.others.observer self.others.ends.0 self.others.ends.1 self.others.report self.others.streams.items self.others.commands.items }
        ensures { IfOk result (λ w. IsWorld links.now w.mixer w.others.observer w.others.ends.0 w.others.ends.1 w.others.report w.others.streams.items w.others.commands.items) }
    {
        let Parts {
            tracks,
            mutator,
            reader,
            from,
            others,
        } = self;
        let mixer = NormalMixer::make(alloc, frames, normal, tracks, mutator, reader, from)?;
        Ok(World { mixer, others })
    }
}

/// What is played in a world.
#[derive(Clone, Copy)]
pub(crate) enum Plan<'a> {
    /// The rows of these tables, one after the other.
    Rows(&'a [&'a [Row]]),
    /// A long run beside the plain mixer.
    Beside,
}

// Whether each row of a table is answered as it must be.
fn play_rows<L: Ledger>(
    world: &mut World,
    links: &Links<'_>,
    rows: &[Row],
    steps: &mut Steps<L>,
) -> bool
    requires { IsWorld links.now world.old.mixer world.old.others.observer world.old.others.ends.0 world.old.others.ends.1 world.old.others.report world.old.others.streams.items world.old.others.commands.items }
    ensures { IsWorld links.now world.new.mixer world.new.others.observer world.new.others.ends.0 world.new.others.ends.1 world.new.others.report world.new.others.streams.items world.new.others.commands.items }
{
    for row in rows {
        if !world.does(links, row, steps) {
            return false;
        }
    }
    true
}

// The same of each of some tables.
fn play_all<L: Ledger>(
    world: &mut World,
    links: &Links<'_>,
    tables: &[&[Row]],
    steps: &mut Steps<L>,
) -> bool
    requires { IsWorld links.now world.old.mixer world.old.others.observer world.old.others.ends.0 world.old.others.ends.1 world.old.others.report world.old.others.streams.items world.old.others.commands.items }
{
    for rows in tables {
        if !play_rows(world, links, rows, steps) {
            return false;
        }
    }
    true
}

// Whether a plan comes out.
fn play_plan<L: Ledger>(
    alloc: Global,
    world: &mut World,
    links: &Links<'_>,
    plan: Plan<'_>,
    steps: &mut Steps<L>,
) -> bool
    requires { IsWorld links.now world.old.mixer world.old.others.observer world.old.others.ends.0 world.old.others.ends.1 world.old.others.report world.old.others.streams.items world.old.others.commands.items }
{
    match plan {
        Plan::Rows(tables) => play_all(world, links, tables, steps),
        Plan::Beside => runs_beside(alloc, world, links, steps) == Ok(true),
    }
}

fn plays_in<L: Ledger>(
    alloc: Global,
    blank: Blank,
    kinds: &[Kind],
    frames: u32,
    normal: u32,
    plan: Plan<'_>,
) -> Result<bool, Memory>
    requires name { blank.name ≡ L.name }
    requires parts { (blank.parts ≡ L.parts) × (0 < blank.parts) }
    requires sizes { (1 ≤ frames) × (frames ≤ 1024) × (1 ≤ normal) × (normal ≤ 16) }
    requires count { (1 ≤ length kinds.now) × (length kinds.now ≤ 32) }
{
    let mut steps = Steps::<L>::start(blank);
    let (shared, parts) = begin(alloc, kinds, frames, normal)?;
    let links = shared.links();
    let Ok(mut world) = parts.join(alloc, &links, frames, normal) else {
        drop(shared);
        return Err(Memory);
    };
    let told = play_plan(alloc, &mut world, &links, plan, &mut steps);
    drop(world);
    drop(shared);
    Ok(told)
}

// Whether a plan comes out over new blocks, for one to 32 tracks and up to 1,024 frames a cycle and 16 cycles a buffer.
pub(crate) fn plays(
    alloc: Global,
    kinds: &[Kind],
    frames: u32,
    normal: u32,
    plan: Plan<'_>,
) -> bool {
    if kinds.is_empty() || kinds.len() > 32 {
        return false;
    }
    let (frames, normal) = (frames.max(1).min(1024), normal.max(1).min(16));
    plays_in::<Brand>(alloc, Blank::new(1), kinds, frames, normal, plan) == Ok(true)
}

/// A case: what it shows, its tracks, the frames of a cycle and the cycles of a normal buffer, and its rows.
#[derive(Clone, Copy)]
pub(crate) struct Case {
    pub what: &'static str,
    pub kinds: &'static [Kind],
    pub sizes: (u32, u32),
    pub rows: &'static [Row],
}

/// What the first case shows that doesn't come out; nothing if all do.
pub(crate) fn first_wrong(alloc: Global, cases: &'static [Case]) -> &'static str {
    for case in cases {
        let (frames, normal) = case.sizes;
        let plan = Plan::Rows(&[case.rows]);
        if !plays(alloc, case.kinds, frames, normal, plan) {
            return case.what;
        }
    }
    ""
}
