//! The ends of the pipe and of the report on one thread, and both mixers' ends on two.
ghost use Rattle.std.specs.Prelude.{◌≡◌, ◌<◌, ◌≤◌, IfOk, length, true};
ghost use Rattle.af_client.specs.Order.{IsClientOf};
ghost use Rattle.af_link.specs.Linked.{AreLinked};
ghost use Rattle.af_link.specs.PipeEnds.{in_made, out_made};
ghost use Rattle.af_link.specs.Reports.{last_cycle};
ghost use Rattle.af_server.specs.Order.{IsServerOf};

use af_base::{Frame, Memory, Steps};
use af_cblk::Block;
use af_client::{Client, Wrote};
use af_link::{
    Links, PipeIn, PipeOut, Report, ReportCell, ReportReader, ReportWriter, StreamNames,
    first_report, meet_all, meet_flag, meet_pipe, meet_report, meet_track, pipe, report,
    stream_names,
};
use af_server::Server;
use af_stateq::{Mutator, Observer, queue};
use std::alloc::Global;
use std::marker::Brand;
use std::mem::drop;
use std::sync::ledger::{Blank, Ledger};
use std::thread::{self, Threads, yield_now};

// The frames of these numbers, each with its number as its word.
fn numbered(alloc: Global, count: u32) -> Result<Vec<Frame>, Memory> {
    let mut frames = Vec::new(alloc);
    for number in 0..count {
        if frames.push(Frame::unpack(number)).is_err() {
            return Err(Memory);
        }
    }
    Ok(frames)
}

// Whether these frames have the numbers from `next` on.
fn follow(frames: &[Frame], next: u32) -> bool {
    let mut number = next;
    for frame in frames {
        if frame.pack() != number {
            return false;
        }
        number = number.wrapping_add(1);
    }
    true
}

// Puts so many frames, of which the first has this number, and takes them. It answers whether they came.
fn pass_on<L: Ledger>(
    block: &Block,
    from: &mut PipeIn,
    to: &mut PipeOut,
    frames: &[Frame],
    next: u32,
    steps: &mut Steps<L>,
) -> bool
    requires made { (in_made from.old ≡ block.now) × (out_made to.old ≡ block.now) }
    requires count { length frames.now ≤ 3 }
    ensures made { (in_made from.new ≡ block.now) × (out_made to.new ≡ block.now) }
{
    let room = from.room(block, steps) as usize;
    if room < frames.len() {
        return false;
    }
    from.put(block, frames, steps);
    let count = to.look(block, 3, steps) as usize;
    if count == 0 || count != frames.len() {
        return count == frames.len();
    }
    let mut into = [Frame::unpack(0); 3];
    to.take(block, &mut into[..count], steps);
    follow(&into[..count], next) && to.rear() == next.wrapping_add(count as u32)
}

// No frames, two, and three across the wrap of a pipe of three frames.
fn passes_all<L: Ledger>(
    block: &Block,
    from: &mut PipeIn,
    to: &mut PipeOut,
    steps: &mut Steps<L>,
) -> [bool; 3]
    requires made { (in_made from.old ≡ block.now) × (out_made to.old ≡ block.now) }
{
    let frames = [0, 1, 2, 3, 4].map(Frame::unpack);
    let none = pass_on(block, from, to, &frames[..0], 0, steps);
    let two = pass_on(block, from, to, &frames[..2], 0, steps);
    let three = pass_on(block, from, to, &frames[2..], 2, steps);
    meet_pipe(block, from, to, steps);
    [none, two, three]
}

fn passes_frames<L: Ledger>(alloc: Global, blank: Blank) -> Result<[bool; 3], Memory>
    requires name { blank.name ≡ L.name }
    requires parts { (blank.parts ≡ L.parts) × (0 < blank.parts) }
{
    let mut steps = Steps::<L>::start(blank);
    let mut made = pipe(alloc, 3)?;
    let passed = passes_all(&made.0, &mut made.1, &mut made.2, &mut steps);
    drop(made);
    Ok(passed)
}

#[test]
fn a_pipe_passes_frames_on(rt: HostRuntime) {
    let passed = passes_frames::<Brand>(rt.alloc(), Blank::new(1));
    assert!(rt; passed == Ok([true; 3]));
}

// The report of a cycle, with the cycle's number in its slots too.
fn report_of(cycle: u64) -> Report
    ensures { result.cycle ≡ cycle }
{
    let mut report = first_report();
    report.cycle = cycle;
    for slot in report.slots.iter_mut() {
        slot.consumed = cycle;
    }
    report
}

fn is_whole(report: &Report) -> bool {
    report
        .slots
        .iter()
        .all(|slot| slot.consumed == report.cycle)
}

// The cycles of the reports that are loaded.
fn loads_all<L: Ledger>(
    cell: &ReportCell,
    writer: &mut ReportWriter,
    reader: &mut ReportReader,
    steps: &mut Steps<L>,
) -> [u64; 3]
    requires made { (writer.old.cell ≡ cell.now) × (reader.old.cell ≡ cell.now) }
    requires new { last_cycle writer.old.events ≡ 0 }
{
    let first = reader.load(cell, steps);
    writer.store(cell, &report_of(1), steps);
    writer.store(cell, &report_of(4), steps);
    let second = reader.load(cell, steps);
    meet_report(cell, writer, reader, steps);
    let third = reader.load(cell, steps);
    [first.cycle, second.cycle, third.cycle]
}

fn loads_reports<L: Ledger>(alloc: Global, blank: Blank) -> Result<[u64; 3], Memory>
    requires name { blank.name ≡ L.name }
    requires parts { (blank.parts ≡ L.parts) × (0 < blank.parts) }
{
    let mut steps = Steps::<L>::start(blank);
    let mut made = report(alloc)?;
    let loaded = loads_all(&made.0, &mut made.1, &mut made.2, &mut steps);
    drop(made);
    Ok(loaded)
}

#[test]
fn a_load_shows_the_newest_report(rt: HostRuntime) {
    let found = loads_reports::<Brand>(rt.alloc(), Blank::new(1));
    assert!(rt; found == Ok([0, 4, 4]));
}

// A client, a server and a hand that meet while frames are written: whether a frame was put, and the hand's flag seen.
fn meet_each<L: Ledger>(
    block: &Block,
    client: &mut Client,
    server: &mut Server,
    steps: &mut Steps<L>,
) -> bool
    requires client { IsClientOf block.now client.old }
    requires server { IsServerOf block.now server.old }
    requires new { (client.old.released ≡ 0) × (server.old.pass.has_hand ≡ true) }
{
    let mut hand = server.hand(block, steps);
    meet_track(client, server, block, steps);
    let wrote = client.write(block, &[Frame::unpack(7)], steps);
    meet_flag(client, &mut hand, block, steps);
    block.set_disabled(&mut hand, steps);
    meet_all(client, server, &mut hand, block, steps);
    let disabled = client.clear_disabled(block, steps) == 8;
    disabled && matches!(wrote, Wrote::Put { count: 1, .. })
}

fn meets<L: Ledger>(alloc: Global, blank: Blank) -> Result<bool, Memory>
    requires name { blank.name ≡ L.name }
    requires parts { (blank.parts ≡ L.parts) × (0 < blank.parts) }
{
    let mut steps = Steps::<L>::start(blank);
    let (block, client, server) = Block::make(alloc, 4, 0)?;
    let mut client = Client::with(client, &block);
    let mut server = Server::with(server, &block);
    let met = meet_each(&block, &mut client, &mut server, &mut steps);
    drop(server);
    drop(client);
    drop(block);
    Ok(met)
}

#[test]
fn proxies_meet(rt: HostRuntime) {
    let met = meets::<Brand>(rt.alloc(), Blank::new(1));
    assert!(rt; met == Ok(true));
}

/// How many calls a thread makes at most.
const MOST: u32 = 1_000_000;

// Takes frames as they come, up to 64 at once, and stores a report after each take. It answers whether each frame had the number of its place.
fn take_in<L: Ledger>(
    blank: Blank,
    links: &Links<'_>,
    to: &mut PipeOut,
    writer: &mut ReportWriter,
    total: u32,
) -> bool
    requires ledger { (blank.name ≡ L.name) × (blank.parts ≡ L.parts) × (0 < blank.parts) }
    requires made { (out_made to.old ≡ links.now.pipe.now) × (writer.old.cell ≡ links.now.report.now) }
    requires new { last_cycle writer.old.events ≡ 0 }
{
    let mut steps = Steps::<L>::start(blank);
    let mut into = [Frame::unpack(0); 64];
    let mut next = 0u32;
    let mut in_place = true;
    for cycle in 1..MOST {
        let count = to.look(links.pipe, 64, &mut steps);
        if count == 0 {
            yield_now();
            continue;
        }
        let taken = &mut into[..count as usize];
        to.take(links.pipe, taken, &mut steps);
        in_place = in_place && follow(taken, next);
        next = next.wrapping_add(count);
        writer.store(links.report, &report_of(cycle as u64), &mut steps);
        if next >= total {
            break;
        }
    }
    in_place
}

// Puts these frames, up to 64 at once, and loads a report after each put. It answers whether each report was whole, and of no earlier cycle than the one before.
fn put_in<L: Ledger>(
    blank: Blank,
    links: &Links<'_>,
    from: &mut PipeIn,
    reader: &mut ReportReader,
    frames: &[Frame],
) -> bool
    requires ledger { (blank.name ≡ L.name) × (blank.parts ≡ L.parts) × (0 < blank.parts) }
    requires made { (in_made from.old ≡ links.now.pipe.now) × (reader.old.cell ≡ links.now.report.now) }
{
    let mut steps = Steps::<L>::start(blank);
    let mut rest = frames;
    let mut last = 0;
    let mut right = true;
    for _ in 0..MOST {
        let room = from.room(links.pipe, &mut steps) as usize;
        let (now, later) = rest.split_at(room.min(64).min(rest.len()));
        from.put(links.pipe, now, &mut steps);
        let report = reader.load(links.report, &mut steps);
        right = right && report.cycle >= last && is_whole(&report);
        last = report.cycle;
        rest = later;
        if rest.is_empty() {
            break;
        }
        yield_now();
    }
    right
}

// What the fast mixer has of the shared objects.
#[derive(Drop)]
struct FastEnds {
    observer: Observer<Server, StreamNames>,
    to: PipeOut,
    writer: ReportWriter,
}

// The fast mixer's side, with its conditions on the links.
fn run_fast(links: &Links<'_>, mut ends: FastEnds, total: u32) -> bool
    requires linked { AreLinked links.now ends.observer.past.key ends.observer.past.queue ends.writer.cell (out_made ends.to) }
    requires new { last_cycle ends.writer.events ≡ 0 }
{
    let held = ends.observer.current().is_some();
    let (to, writer) = (&mut ends.to, &mut ends.writer);
    let in_place = take_in::<Brand>(Blank::new(1), links, to, writer, total);
    drop(ends);
    in_place && !held
}

// What the normal mixer has of the shared objects.
#[derive(Drop)]
struct NormalEnds {
    mutator: Mutator<Server, StreamNames>,
    from: PipeIn,
    reader: ReportReader,
}

// The normal mixer's side, with its conditions on the links.
fn run_normal(links: &Links<'_>, mut ends: NormalEnds, frames: &[Frame]) -> bool
    requires linked { AreLinked links.now ends.mutator.past.key ends.mutator.past.queue ends.reader.cell (in_made ends.from) }
{
    let free = ends.mutator.is_free(1);
    let (from, reader) = (&mut ends.from, &mut ends.reader);
    let right = put_in::<Brand>(Blank::new(1), links, from, reader, frames);
    drop(ends);
    right && free
}

// Both mixers' ends on two threads.
fn cross<R: Threads + Sync>(
    rt: &R,
    links: &Links<'_>,
    fast: FastEnds,
    normal: NormalEnds,
    frames: &[Frame],
    total: u32,
) -> bool
    requires fast { AreLinked links.now fast.observer.past.key fast.observer.past.queue fast.writer.cell (out_made fast.to) }
    requires new { last_cycle fast.writer.events ≡ 0 }
    requires normal { AreLinked links.now normal.mutator.past.key normal.mutator.past.queue normal.reader.cell (in_made normal.from) }
{
    let (in_place, right) = thread::join(
        rt,
        move || -> bool
            requires { AreLinked links.now fast.observer.past.key fast.observer.past.queue fast.writer.cell (out_made fast.to) × (last_cycle fast.writer.events ≡ 0) }
        { run_fast(links, fast, total) },
        move || -> bool
            requires { AreLinked links.now normal.mutator.past.key normal.mutator.past.queue normal.reader.cell (in_made normal.from) }
        { run_normal(links, normal, frames) },
    );
    in_place && right
}

// Both mixers' ends on two threads, over these blocks and a new pipe of four buffers of 64 frames.
fn cross_over<R: Threads + Sync>(
    rt: &R,
    alloc: Global,
    streams: &[Block],
    frames: &[Frame],
    total: u32,
) -> Result<bool, Memory> {
    let report = report(alloc)?;
    let Ok(pipe) = pipe(alloc, 256) else {
        drop(report);
        return Err(Memory);
    };
    let Ok(queue) = queue::<Server, StreamNames>(alloc, 64, stream_names(streams)) else {
        drop(report);
        drop(pipe);
        return Err(Memory);
    };
    let (cell, writer, reader) = report;
    let (block, from, to) = pipe;
    let (line, mutator, observer) = queue;
    let links = Links {
        queue: &line,
        streams,
        commands: &[],
        pipe: &block,
        report: &cell,
    };
    let fast = FastEnds {
        observer,
        to,
        writer,
    };
    let normal = NormalEnds {
        mutator,
        from,
        reader,
    };
    let crossed = cross(rt, &links, fast, normal, frames, total);
    drop(line);
    drop(block);
    drop(cell);
    Ok(crossed)
}

// Both mixers' ends on two threads, with so many numbered frames, over one block.
fn run_both<R: Threads + Sync>(rt: &R, alloc: Global, total: u32) -> Result<bool, Memory> {
    let frames = numbered(alloc, total)?;
    let Ok((stream, client, server)) = Block::make(alloc, 64, 0) else {
        drop(frames);
        return Err(Memory);
    };
    drop(client);
    drop(server);
    let streams = [stream];
    let crossed = cross_over(rt, alloc, &streams, frames.as_slice(), total);
    drop(streams);
    drop(frames);
    crossed
}

#[test]
fn frames_and_reports_cross_threads(rt: HostRuntime) {
    let found = run_both(&rt, rt.alloc(), 100_000);
    assert!(rt; found == Ok(true));
}
