//! How the ends of a mixer are made.
ghost use Rattle.std.specs.Prelude.{◌≡◌, ◌*◌, ◌^◌, ◌≤◌, List, IfOk, IfErr, OnOk, All, length};
ghost use Rattle.af_cblk.specs.Sides.{Made};
ghost use Rattle.af_fast.specs.Mixer.{IsInOrder as IsFastInOrder, made_of};
ghost use Rattle.af_link.specs.declared.links.Links.{Links};
ghost use Rattle.af_normal.specs.Making.{AreNew, IsMade};
ghost use Rattle.af_normal.specs.Order.{IsInOrder as IsNormalInOrder};
ghost use Rattle.af_engine.specs.Engines.{AreTogether};
ghost use Rattle.af_engine.specs.MixerSpecs.{IsMakeCause, IsMixerSpec};
ghost use Rattle.af_engine.specs.NewEnds.{AreNewEnds};
ghost use Rattle.af_engine.specs.NewEngine.{IsNewEngine};
ghost use Rattle.af_engine.specs.Shares.{AreLinksOf, SharedState};

use crate::ends::Engine;
use crate::shared::Shared;
use crate::spec::{MakeError, MixerSpec};
use crate::tracks::new_tracks;
use af_base::Memory;
use af_cblk::Block;
use af_fast::FastMixer;
use af_link::{
    PipeIn, PipeOut, ReportCell, ReportReader, ReportWriter, StreamNames, pipe, report,
    stream_names,
};
use af_normal::{NormalMixer, Tracks};
use af_server::Server;
use af_stateq::{Mutator, Observer, Queue, queue};
use std::alloc::Global;

/// The ends of the queue, of the report and of the pipe: first the normal mixer's, then the fast mixer's.
#[derive(Drop)]
struct Ends {
    mutator: Mutator<Server, StreamNames>,
    reader: ReportReader,
    from: PipeIn,
    observer: Observer<Server, StreamNames>,
    writer: ReportWriter,
    to: PipeOut,
}

/// The queue, the pipe and the cell of the report, with the ends of both mixers.
#[derive(Drop)]
struct Joints {
    queue: Queue<Server, StreamNames>,
    pipe: Block,
    report: ReportCell,
    ends: Ends,
}

/// The two mixers.
#[derive(Drop)]
struct Mixers {
    normal: NormalMixer,
    fast: FastMixer,
}

// The queue over these blocks of streams, the pipe and the report, for `frames` frames a fast cycle and `normal` cycles a buffer.
fn join(alloc: Global, frames: u32, normal: u32, streams: &[Block]) -> Result<Joints, Memory>
    requires { (1 ≤ frames) × (frames ≤ 1024) × (1 ≤ normal) × (normal ≤ 16) }
    ensures { (commands : List Made) → IfOk result (λ j. AreNewEnds frames normal
        (record { queue = j.queue; streams = streams.now; commands = commands; pipe = j.pipe; report = j.report })
        (record { mutator = j.ends.mutator; reader = j.ends.reader; from = j.ends.from; observer = j.ends.observer; writer = j.ends.writer; to = j.ends.to })) }
{
    let report = report(alloc)?;
    let pipe = pipe(alloc, 4 * (normal * frames))?;
    let queue = queue::<Server, StreamNames>(alloc, frames, stream_names(streams))?;
    Ok(Joints {
        queue: queue.0,
        pipe: pipe.0,
        report: report.0,
        ends: Ends {
            mutator: queue.1,
            reader: report.2,
            from: pipe.1,
            observer: queue.2,
            writer: report.1,
            to: pipe.2,
        },
    })
}

// The shared objects over these blocks, with the ends of both mixers, for `frames` frames a fast cycle and `normal` cycles a buffer.
fn share(
    alloc: Global,
    frames: u32,
    normal: u32,
    streams: Vec<Block>,
    commands: Vec<Block>,
) -> Result<(Shared, Ends), Memory>
    requires { (1 ≤ frames) × (frames ≤ 1024) × (1 ≤ normal) × (normal ≤ 16) }
    ensures ends { IfOk result (λ r. AreNewEnds frames normal r.0
        (record { mutator = r.1.mutator; reader = r.1.reader; from = r.1.from; observer = r.1.observer; writer = r.1.writer; to = r.1.to })) }
    ensures blocks { IfOk result (λ r. (r.0.streams ≡ streams.items) × (r.0.commands ≡ commands.items)) }
{
    let joints = join(alloc, frames, normal, &streams)?;
    let shared = Shared {
        queue: joints.queue,
        streams,
        commands,
        pipe: joints.pipe,
        report: joints.report,
    };
    Ok((shared, joints.ends))
}

// The mixers of these tracks over their ends, on which nothing was done.
fn make_mixers(
    alloc: Global,
    frames: u32,
    normal: u32,
    cycles: u32,
    tracks: Tracks,
    ends: Ends,
) -> Result<Mixers, Memory>
    requires sizes { (1 ≤ frames) × (frames ≤ 1024) × (1 ≤ normal) × (normal ≤ 16) }
    requires cycles { (1 ≤ cycles) × (cycles ≤ 100000) × (cycles * frames ≤ 2 ^ 21) }
    requires count { (1 ≤ length tracks.settings) × (length tracks.settings ≤ 32) }
    requires scales { All (λ setting. setting.scale ≤ 4096) tracks.settings }
    requires ends { (shared : SharedState) × AreNewEnds frames normal shared
        (record { mutator = ends.mutator; reader = ends.reader; from = ends.from; observer = ends.observer; writer = ends.writer; to = ends.to }) }
    ensures normal { IfOk result (λ m. IsMade frames normal tracks ends.mutator ends.reader ends.from m.normal) }
    ensures fast { IfOk result (λ m. (m.fast ≡ made_of ends.observer ends.writer ends.to cycles frames) × IsFastInOrder m.fast) }
    ensures order { (links : Links) → AreNew links frames normal tracks ends.mutator ends.reader ends.from → IfOk result (λ m. IsNormalInOrder links m.normal) }
{
    let fast = FastMixer::make(
        alloc,
        ends.observer,
        ends.writer,
        ends.to,
        cycles as usize,
        frames as usize,
    )?;
    let normal = NormalMixer::make(
        alloc,
        frames,
        normal,
        tracks,
        ends.mutator,
        ends.reader,
        ends.from,
    )?;
    Ok(Mixers { normal, fast })
}

// The ends of a mixer whose spec fits.
fn make_fitting(alloc: Global, spec: &MixerSpec<'_>) -> Result<(Shared, Engine), Memory>
    requires { IsMixerSpec spec.now }
    ensures new { IfOk result (λ r. IsNewEngine spec.now r.0 r.1) }
    ensures together { (links : Links) → IfOk result (λ r. AreLinksOf r.0 links → AreTogether links r.1) }
{
    let (frames, normal, cycles) = (spec.frames, spec.normal, spec.cycles);
    let made = new_tracks(alloc, spec.tracks)?;
    let (shared, ends) = share(alloc, frames, normal, made.streams, made.commands)?;
    let mixers = make_mixers(alloc, frames, normal, cycles, made.tracks, ends)?;
    let engine = Engine {
        tracks: made.clients,
        normal: mixers.normal,
        fast: mixers.fast,
    };
    Ok((shared, engine))
}

/// The ends of a mixer of this spec, on which nothing was done, and what they share: the blocks of its tracks, the queue, the pipe and the cell of the report. They are in order, and were made together.
///
/// It refuses a spec that doesn't fit with `MakeError::Spec`, by its first number that is wrong. Otherwise it is refused only for lack of memory, with `MakeError::Memory`.
pub fn make(alloc: Global, spec: &MixerSpec<'_>) -> Result<(Shared, Engine), MakeError>
    ensures new { IfOk result (λ r. IsNewEngine spec.now r.0 r.1) }
    ensures together { (links : Links) → IfOk result (λ r. AreLinksOf r.0 links → AreTogether links r.1) }
    ensures fits { OnOk result (IsMixerSpec spec.now) }
    ensures refused { IfErr result (λ error. IsMakeCause error spec.now) }
{
    if let Err(error) = spec.check() {
        return Err(MakeError::Spec { error });
    }
    match make_fitting(alloc, spec) {
        Ok(made) => Ok(made),
        Err(_) => Err(MakeError::Memory),
    }
}
