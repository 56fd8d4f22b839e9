//! What the tests of a mixer share: its ends, the calls on them, and what they may answer.
ghost use Rattle.std.specs.Prelude.{◌≡◌, ◌+◌, ◌*◌, ◌^◌, ◌<◌, ◌≤◌, true, false, IfOk};
ghost use Rattle.af_base.specs.Log.{slots};
ghost use Rattle.af_cblk.specs.Sides.{client_made};
ghost use Rattle.af_client.specs.Order.{IsInOrder as IsClientInOrder};
ghost use Rattle.af_link.specs.Linked.{AreLinked};
ghost use Rattle.af_link.specs.Names.{IsStreamOf};
ghost use Rattle.af_link.specs.PipeEnds.{in_made, out_made};
ghost use Rattle.af_stateq.specs.Observes.{InOrder};
ghost use Rattle.af_fast.specs.Fits.{NamesBlocks, stream_fits};
ghost use Rattle.af_fast.specs.Mixer.{IsInOrder, IsLinked, IsSound, IsUnused};
ghost use Rattle.af_fast_tests.specs.Ready.{IsReady};
ghost use Rattle.af_model.specs.Tracks.{tracks_of};

use af_base::{
    Command, Cycle, CycleEntry, FastLog, Frame, Memory, Push, Report, SLOTS, Seen, SlotEntry,
    SlotReport, Steps,
};
use af_cblk::Block;
use af_client::Client;
use af_fast::FastMixer;
use af_link::{
    Links, PipeIn, PipeOut, ReportCell, ReportReader, ReportWriter, StreamNames, first_report,
    pipe, report, stream_names,
};
use af_model::carries_item;
use af_server::Server;
use af_stateq::{Mutator, Observer, Queue, queue};
use std::alloc::Global;
use std::marker::Brand;
use std::mem::drop;
use std::sync::ledger::{Blank, Ledger};
use std::test::*;

pub(crate) type Line = Queue<Server, StreamNames>;

pub(crate) type Pushing = Mutator<Server, StreamNames>;

type Polling = Observer<Server, StreamNames>;

/// What the parties of a run share, beside the blocks of its streams.
#[derive(Drop)]
pub(crate) struct Shared {
    queue: Line,
    pipe: Block,
    report: ReportCell,
}

/// The ends that a test moves.
#[derive(Drop)]
pub(crate) struct Ends {
    pub mutator: Pushing,
    pub mixer: FastMixer,
    pub reader: ReportReader,
    pub pipe: PipeIn,
}

impl Shared {
    /// The links of a run over these blocks.
    pub(crate) fn links<'a>(&'a self, streams: &'a [Block]) -> Links<'a>
        ensures queue { result.queue.now ≡ self.now.queue }
        ensures streams { result.streams.now ≡ streams.now }
        ensures pipe { result.pipe.now ≡ self.now.pipe }
        ensures report { result.report.now ≡ self.now.report }
    {
        Links {
            queue: &self.queue,
            streams,
            commands: &[],
            pipe: &self.pipe,
            report: &self.report,
        }
    }
}

/// What joins two mixers, and the ends that a test moves.
#[derive(Drop)]
struct Joints {
    shared: Shared,
    mutator: Pushing,
    reader: ReportReader,
    from: PipeIn,
}

/// The ends of the fast mixer.
#[derive(Drop)]
struct FastEnds {
    observer: Polling,
    writer: ReportWriter,
    to: PipeOut,
}

/// The joints of two mixers, over these blocks and a pipe of 64 frames. Nothing was done on any end.
fn join(alloc: Global, streams: &[Block], frames: usize) -> Result<(Joints, FastEnds), Memory>
    requires frames { (1 ≤ frames) × (frames ≤ 16) }
    ensures names { IfOk result (λ j. NamesBlocks j.0.mutator.past.key streams.now × NamesBlocks j.1.observer.past.key streams.now) }
    ensures queue { IfOk result (λ j. (j.0.mutator.past.queue ≡ j.0.shared.queue) × (j.1.observer.past.queue ≡ j.0.shared.queue)) }
    ensures report { IfOk result (λ j. (j.0.reader.cell ≡ j.0.shared.report) × (j.1.writer.cell ≡ j.0.shared.report)) }
    ensures pipe { IfOk result (λ j. (in_made j.0.from ≡ j.0.shared.pipe) × (out_made j.1.to ≡ j.0.shared.pipe)) }
    ensures unused { IfOk result (λ j. IsUnused j.1.observer j.1.writer j.1.to) }
    ensures order { IfOk result (λ j. InOrder stream_fits j.1.observer) }
    ensures mutator { IfOk result (λ j. (j.0.mutator.past.number ≡ 0) × (j.0.mutator.editing ≡ false)) }
{
    let report = report(alloc)?;
    let Ok(pipe) = pipe(alloc, 64) else {
        drop(report);
        return Err(Memory);
    };
    let names = stream_names(streams);
    let Ok(queue) = queue::<Server, StreamNames>(alloc, frames as u32, names) else {
        drop(report);
        drop(pipe);
        return Err(Memory);
    };
    let joints = Joints {
        shared: Shared {
            queue: queue.0,
            pipe: pipe.0,
            report: report.0,
        },
        mutator: queue.1,
        reader: report.2,
        from: pipe.1,
    };
    let fast = FastEnds {
        observer: queue.2,
        writer: report.1,
        to: pipe.2,
    };
    Ok((joints, fast))
}

/// A mixer of `cycles` entries and `frames` frames a cycle, with all other ends, over these blocks and a pipe of 64 frames.
pub(crate) fn begin(
    alloc: Global,
    streams: &[Block],
    cycles: usize,
    frames: usize,
) -> Result<(Shared, Ends), Memory>
    requires cycles { (1 ≤ cycles) × (cycles ≤ 100000) }
    requires frames { (1 ≤ frames) × (frames ≤ 16) }
    ensures names { IfOk result (λ r. NamesBlocks r.1.mutator.past.key streams.now × NamesBlocks r.1.mixer.observer.past.key streams.now) }
    ensures queue { IfOk result (λ r. (r.1.mutator.past.queue ≡ r.0.queue) × (r.1.mixer.observer.past.queue ≡ r.0.queue)) }
    ensures report { IfOk result (λ r. (r.1.reader.cell ≡ r.0.report) × (r.1.mixer.writer.cell ≡ r.0.report)) }
    ensures pipe { IfOk result (λ r. (in_made r.1.pipe ≡ r.0.pipe) × (out_made r.1.mixer.pipe ≡ r.0.pipe)) }
    ensures order { IfOk result (λ r. IsInOrder r.1.mixer × (r.1.mixer.adopted ≡ false) × (r.1.mixer.frames ≡ frames)) }
    ensures mutator { IfOk result (λ r. (r.1.mutator.past.number ≡ 0) × (r.1.mutator.editing ≡ false)) }
{
    let (joints, fast) = join(alloc, streams, frames)?;
    let FastEnds {
        observer,
        writer,
        to,
    } = fast;
    let Ok(mixer) = FastMixer::make(alloc, observer, writer, to, cycles, frames) else {
        drop(joints);
        return Err(Memory);
    };
    let ends = Ends {
        mutator: joints.mutator,
        mixer,
        reader: joints.reader,
        pipe: joints.from,
    };
    Ok((joints.shared, ends))
}

/// Attaches the proxy of a track if the slot is free, and says whether it was.
pub(crate) fn attach(
    mutator: &mut Pushing,
    links: &Links<'_>,
    slot: u32,
    mono: bool,
    scale: u16,
    track: u32,
    server: Server,
) -> bool
    requires idle { mutator.old.editing ≡ false }
    requires slot { (1 ≤ slot) × (slot < slots) }
    requires scale { scale ≤ 4096 }
    requires names { NamesBlocks mutator.old.past.key links.now.streams.now }
    requires stream { IsStreamOf links.now.streams.now track server }
    ensures same { (mutator.new.past ≡ mutator.old.past) × (mutator.new.editing ≡ false) }
{
    let draft = *mutator.draft();
    if !mutator.is_free(slot)
        || draft.tracks_gen > 999_999
        || draft.slots[slot as usize].generation > 999_999
    {
        return false;
    }
    mutator.begin();
    mutator.attach(slot, mono, scale, track, server);
    mutator.end(true);
    true
}

/// Detaches a slot if it is active, and says whether it was.
pub(crate) fn detach(mutator: &mut Pushing, slot: u32) -> bool
    requires idle { mutator.old.editing ≡ false }
    requires slot { (1 ≤ slot) × (slot < slots) }
    ensures same { (mutator.new.past ≡ mutator.old.past) × (mutator.new.editing ≡ false) }
{
    let draft = *mutator.draft();
    if !carries_item(&draft, slot as usize) || draft.tracks_gen > 999_999 {
        return false;
    }
    mutator.begin();
    mutator.detach(slot);
    mutator.end(true);
    true
}

/// Sets the command, and pushes.
pub(crate) fn push_command<L: Ledger>(
    mutator: &mut Pushing,
    links: &Links<'_>,
    command: Command,
    steps: &mut Steps<L>,
) -> Push
    requires idle { mutator.old.editing ≡ false }
    requires queue { mutator.old.past.queue ≡ links.now.queue.now }
    requires few { mutator.old.past.number < 1000000 }
    ensures idle { mutator.new.editing ≡ false }
    ensures same { (mutator.new.past.queue ≡ mutator.old.past.queue) × (mutator.new.past.key ≡ mutator.old.past.key) }
    ensures few { mutator.new.past.number ≤ mutator.old.past.number + 1 }
{
    let draft = *mutator.draft();
    mutator.begin();
    if draft.cold_gen < 999_999 {
        mutator.set_command(command);
    }
    mutator.end(true);
    mutator.push(links.queue, steps)
}

/// One cycle of four frames takes at most 97 steps for seven tracks, and at most 385 for any.
pub(crate) fn one_cycle<L: Ledger>(
    mixer: &mut FastMixer,
    links: &Links<'_>,
    out: &mut [Frame; 4],
    steps: &mut Steps<L>,
) -> Cycle
    requires linked { IsLinked links.now mixer.old }
    requires order { IsSound mixer.old }
    requires turn { mixer.old.adopted ≡ false }
    requires frames { mixer.old.frames ≡ 4 }
    ensures linked { IsLinked links.now mixer.new }
    ensures order { IsSound mixer.new }
    ensures turn { mixer.new.adopted ≡ false }
    ensures frames { mixer.new.frames ≡ 4 }
    ensures seven { tracks_of mixer.new.observer.past.state ≤ 7 → steps.new ≤ steps.old + 97 }
    ensures most { steps.new ≤ steps.old + 385 }
{
    mixer.cycle(links, out, steps)
}

/// The frames of a cycle of a table.
pub(crate) const FRAMES: usize = 4;

/// What a cycle of a table answered and wrote, and the report after it.
#[derive(Clone, Copy, PartialEq, Eq)]
pub(crate) struct Turned {
    pub cycle: Cycle,
    pub out: [Frame; FRAMES],
    pub report: Report,
}

/// What stands in `out` before each cycle.
pub(crate) const BEFORE: Frame = Frame { left: 9, right: 9 };

/// Makes a cycle, and loads the report.
pub(crate) fn turn<L: Ledger>(ends: &mut Ends, links: &Links<'_>, steps: &mut Steps<L>) -> Turned
    requires ready { IsReady links.now 4 ends.old.mutator ends.old.mixer ends.old.reader }
    ensures ready { IsReady links.now 4 ends.new.mutator ends.new.mixer ends.new.reader }
    ensures same { ends.new.mutator ≡ ends.old.mutator }
    ensures pipe { ends.new.pipe ≡ ends.old.pipe }
{
    let mut out = [BEFORE; 4];
    let cycle = one_cycle(&mut ends.mixer, links, &mut out, steps);
    let report = ends.reader.load(links.report, steps);
    Turned { cycle, out, report }
}

// Forgets a log that has so many entries.
fn forget_full(mixer: &mut FastMixer, links: &Links<'_>, most: usize)
    requires linked { IsLinked links.now mixer.old }
    requires order { IsSound mixer.old }
    requires turn { (mixer.old.adopted ≡ false) × (mixer.old.frames ≡ 4) }
    ensures linked { IsLinked links.now mixer.new }
    ensures order { IsSound mixer.new }
    ensures turn { (mixer.new.adopted ≡ false) × (mixer.new.frames ≡ 4) }
{
    let _streams = links.streams.len();
    if mixer.log().len() >= most {
        mixer.forget();
    }
}

/// The mixer forgets its log, if it has so many entries.
pub(crate) fn forget(ends: &mut Ends, links: &Links<'_>, most: usize)
    requires ready { IsReady links.now 4 ends.old.mutator ends.old.mixer ends.old.reader }
    ensures ready { IsReady links.now 4 ends.new.mutator ends.new.mixer ends.new.reader }
    ensures same { ends.new.mutator ≡ ends.old.mutator }
    ensures pipe { ends.new.pipe ≡ ends.old.pipe }
{
    forget_full(&mut ends.mixer, links, most);
}

pub(crate) const SILENCE: Frame = Frame { left: 0, right: 0 };

pub(crate) const ABSENT: SlotEntry = SlotEntry {
    gains: 0,
    flush: 0,
    rear: 0,
    seen: Seen::Absent,
    first: 0,
};

/// An entry in which every slot is absent.
pub(crate) fn still(state: u64, cycle: Cycle) -> CycleEntry {
    CycleEntry {
        state,
        cycle,
        slots: [ABSENT; SLOTS],
        scales: [0; SLOTS],
        mono: 0,
    }
}

/// Whether these are the entries of a log, and these its frames.
pub(crate) fn log_is(log: &FastLog, entries: &[CycleEntry], frames: &[Frame]) -> bool {
    let mut same = log.len() == entries.len();
    for (i, entry) in entries.iter().enumerate() {
        same = same && log.entry(i) == Some(entry);
    }
    same && log.frames() == frames
}
