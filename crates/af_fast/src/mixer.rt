//! The fast mixer, how it is made, and what it lends.
ghost use Rattle.std.specs.Prelude.{◌≡◌, ◌*◌, ◌≤◌, ◌^◌, [], IfOk, length};
ghost use Rattle.std.specs.Borrow.{sem};
ghost use Rattle.af_base.specs.Log.{slots};
ghost use Rattle.af_fast.specs.Lends.{lends_ends, lends_observer, lends_pair};
ghost use Rattle.af_stateq.specs.Observes.{InOrder};
ghost use Rattle.af_fast.specs.Fits.{stream_fits};
ghost use Rattle.af_fast.specs.Mixer.{IsInOrder, IsUnused, made_of};

use af_base::{FastLog, FastState, Frame, Memory, Report};
use af_gain::Sum;
use af_link::{PipeOut, ReportWriter, StreamNames, first_report};
use af_server::Server;
use af_stateq::Observer;
use std::alloc::Global;
use std::marker::Model;

/// The mixer that never waits (AOSP's FastMixer): each cycle it polls for a state, mixes what the pipe and the tracks of the state show, and reports.
///
/// Contracts see its parts with their lists, its log, and the kept values. A mixer is in order if these are the ones that the lists give. `make` makes it so, and each call and each meeting keeps it so.
#[derive(Drop)]
pub struct FastMixer {
    pub(crate) observer: Observer<Server, StreamNames>,
    // The ends of the report and of the pipe.
    pub(crate) ends: (ReportWriter, PipeOut),
    pub(crate) log: FastLog,
    // The frames of a cycle.
    pub(crate) frames: usize,
    // For how many entries the log has room.
    pub(crate) cycles: usize,
    // Whether a state was adopted that no mix has used yet.
    pub(crate) adopted: bool,
    pub(crate) exited: bool,
    // The cold generation performed last.
    pub(crate) cold: u64,
    // The state that the last entry used.
    pub(crate) last: Option<FastState>,
    // The report after the last entry.
    pub(crate) report: Report,
    pub(crate) sums: Vec<Sum>,
    pub(crate) buffer: Vec<Frame>,
}

impl Model for FastMixer {
    ghost use Rattle.std.specs.Prelude.{◌≡◌, length};
    ghost use Rattle.af_fast.specs.Mixer.{MixerState};

    ghost Value = { MixerState };

    ghost view = { λ m. record { observer = m.observer; writer = m.ends.0; pipe = m.ends.1; log = m.log; frames = m.frames; cycles = m.cycles; adopted = m.adopted; exited = m.exited; cold = m.cold; last = m.last; count = m.report.cycle; reports = m.report.slots } };

    ghost invariant = { λ m. (length m.sums.items ≡ m.frames) × (length m.buffer.items ≡ m.frames) };
}

// So many sums of 0.
fn no_sums(alloc: Global, frames: usize) -> Result<Vec<Sum>, Memory>
    ensures { IfOk result (λ v. length v.items ≡ frames) }
{
    let mut sums = Vec::with_capacity(alloc, frames)?;
    sums.resize(frames, Sum { left: 0, right: 0 })?;
    Ok(sums)
}

// So many frames of silence.
fn silence(alloc: Global, frames: usize) -> Result<Vec<Frame>, Memory>
    ensures { IfOk result (λ v. length v.items ≡ frames) }
{
    let mut buffer = Vec::with_capacity(alloc, frames)?;
    buffer.resize(frames, Frame { left: 0, right: 0 })?;
    Ok(buffer)
}

// What a mixer reserves: its whole log, and the sums and frames of one cycle.
#[derive(Drop)]
struct Reserved {
    log: FastLog,
    sums: Vec<Sum>,
    buffer: Vec<Frame>,
}

// What is reserved for so many entries, and for so many frames a cycle.
fn reserve(alloc: Global, cycles: usize, frames: usize) -> Result<Reserved, Memory>
    requires cycles { cycles ≤ 100000 }
    requires frames { cycles * frames ≤ 2 ^ 21 }
    ensures log { IfOk result (λ r. r.log ≡ record { entries = []; frames = []; room = cycles; frame_room = slots * (cycles * frames) }) }
    ensures sums { IfOk result (λ r. length r.sums.items ≡ frames) }
    ensures buffer { IfOk result (λ r. length r.buffer.items ≡ frames) }
{
    Ok(Reserved {
        log: FastLog::with_room(alloc, cycles, frames)?,
        sums: no_sums(alloc, frames)?,
        buffer: silence(alloc, frames)?,
    })
}

impl FastMixer {
    /// A mixer over its three ends, on which nothing was done: for `cycles` entries, from 1 to 100,000, and `frames` frames a cycle, at least 1, with `cycles * frames` at most 2^21.
    ///
    /// It reserves the whole log, and the sums and frames of one cycle. No other call takes memory. It answers Memory only if an allocation was refused.
    pub fn make(
        alloc: Global,
        observer: Observer<Server, StreamNames>,
        writer: ReportWriter,
        pipe: PipeOut,
        cycles: usize,
        frames: usize,
    ) -> Result<FastMixer, Memory>
        requires cycles { (1 ≤ cycles) × (cycles ≤ 100000) }
        requires frames { (1 ≤ frames) × (cycles * frames ≤ 2 ^ 21) }
        requires unused { IsUnused observer writer pipe }
        requires order { InOrder stream_fits observer }
        ensures made { IfOk result (λ m. m ≡ made_of observer writer pipe cycles frames) }
        ensures order { IfOk result IsInOrder }
    {
        let reserved = reserve(alloc, cycles, frames)?;
        let Reserved { log, sums, buffer } = reserved;
        Ok(FastMixer {
            observer,
            ends: (writer, pipe),
            log,
            frames,
            cycles,
            adopted: false,
            exited: false,
            cold: 0,
            last: None,
            report: first_report(),
            sums,
            buffer,
        })
    }

    /// What was read, seen and taken in each cycle so far.
    pub fn log(&self) -> &FastLog
        ensures { result.now ≡ self.now.log }
    {
        &self.log
    }

    /// Whether Exit was answered.
    pub fn has_exited(&self) -> bool
        ensures { result ≡ self.now.exited }
    {
        self.exited
    }

    /// Ends the mixer. What is left is its log.
    pub fn into_log(self) -> FastLog
        ensures { result ≡ self.log }
    {
        let FastMixer { log, .. } = self;
        log
    }

    /// Lends the observer to a meeting.
    pub fn observer(&mut self) -> &mut Observer<Server, StreamNames>
        ensures value { result.now ≡ self.entry.now.observer }
        ensures* lends { sem 𝓛 (lends_observer self.entry result) }
    {
        &mut self.observer
    }

    /// Lends the ends of the report and of the pipe to their meetings, both at once, by one reference to the pair: `let (writer, pipe) = mixer.pair();`.
    ///
    /// It is `ends` for a caller whose own proof goes on with the mixer.
    pub fn pair(&mut self) -> &mut (ReportWriter, PipeOut)
        ensures* lends { sem 𝓛 (lends_pair self.entry result) }
        ensures value { (result.now.0 ≡ self.entry.now.writer) × (result.now.1 ≡ self.entry.now.pipe) }
    {
        &mut self.ends
    }

    /// Lends the ends of the report and of the pipe to their meetings, both at once.
    pub fn ends(&mut self) -> (&mut ReportWriter, &mut PipeOut)
        ensures* lends { sem 𝓛 (lends_ends self.entry result) }
        ensures value { (result.0.now ≡ self.entry.now.writer) × (result.1.now ≡ self.entry.now.pipe) }
    {
        let pair = self.pair();
        (&mut pair.0, &mut pair.1)
    }
}
