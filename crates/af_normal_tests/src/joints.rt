//! The queue, the pipe and the report of a test, with the ends of both mixers.
ghost use Rattle.std.specs.Prelude.{◌≡◌, ◌*◌, ◌≤◌, IfOk};
ghost use Rattle.af_link.specs.declared.links.Links.{Links as Linked};
ghost use Rattle.af_normal_tests.specs.Testing.{AreJoined};

use af_base::Memory;
use af_cblk::Block;
use af_link::{
    PipeIn, PipeOut, ReportCell, ReportReader, ReportWriter, StreamNames, pipe, report,
    stream_names,
};
use af_server::Server;
use af_stateq::{Mutator, Observer, Queue, queue};
use std::alloc::Global;
use std::mem::drop;

/// The queue, the pipe and the report, with the ends of both mixers.
#[derive(Drop)]
pub(crate) struct Joints {
    pub queue: Queue<Server, StreamNames>,
    pub pipe: Block,
    pub report: ReportCell,
    pub mutator: Mutator<Server, StreamNames>,
    pub reader: ReportReader,
    pub from: PipeIn,
    pub observer: Observer<Server, StreamNames>,
    pub ends: (ReportWriter, PipeOut),
}

/// The joints of mixers over these blocks of streams, on `frames` frames a fast cycle and `normal` cycles a buffer.
pub(crate) fn join(
    alloc: Global,
    streams: &[Block],
    frames: u32,
    normal: u32,
) -> Result<Joints, Memory>
    requires { (1 ≤ frames) × (frames ≤ 1024) × (1 ≤ normal) × (normal ≤ 16) }
    ensures { (links : Linked) → IfOk result (λ j. links.queue.now ≡ j.queue → links.streams.now ≡ streams.now → links.pipe.now ≡ j.pipe → links.report.now ≡ j.report
        → AreJoined links frames normal j.mutator j.reader j.from j.observer j.ends.0 j.ends.1) }
{
    let report = report(alloc)?;
    let Ok(pipe) = pipe(alloc, 4 * (normal * frames)) else {
        drop(report);
        return Err(Memory);
    };
    let Ok(queue) = queue::<Server, StreamNames>(alloc, frames, stream_names(streams)) else {
        drop(report);
        drop(pipe);
        return Err(Memory);
    };
    Ok(Joints {
        queue: queue.0,
        pipe: pipe.0,
        report: report.0,
        mutator: queue.1,
        reader: report.2,
        from: pipe.1,
        observer: queue.2,
        ends: (report.1, pipe.2),
    })
}
