//! The two ends of a recording, how they are made, and how they are closed.
ghost use Rattle.std.specs.Prelude.{◌≡◌, ℕ, ◌+◌, ◌^◌, ◌++◌, ◌<◌, ◌≤◌, IfOk, IfErr, List, [], ◌∷◌, min, map, take, drop, length, Ok};
ghost use Rattle.af_base.specs.Sample.{packed_word};
ghost use Rattle.af_record.specs.Supplies.{Supply, supply_of, IsCaptureHistory};
ghost use Rattle.af_record.specs.Ends.{capture_made, listener_made, CameBy, HasRead, IsCalm, ReadBy};
ghost use Rattle.af_ends.specs.Refusals.{RefusesSize};
ghost use Rattle.af_ends.specs.Streams.{count_in};
ghost use Rattle.af_ends.specs.Recordings.{IsOpenedRecord, put_in, HasSupplied, Supplies, Listens, RecordHasMet, RecordHistory};

use crate::common::Common;
use crate::error::EndError;
use crate::stream::MOST_FRAMES;
use af_base::{Frame, Memory, Steps};
use af_cblk::Block;
use af_record::{Capture, Listener, Supplied, make as make_record, meet_record};
use counted_slot::Fits;
use std::alloc::Global;
use std::marker::{Brand, Model};
use std::sync::Arc;
use std::sync::ledger::{Blank, Ledger};

/// How many frames a call supplies or reads at most.
pub const MOST_AT_ONCE: usize = 1024;

/// How many frames are supplied or read at most in all.
const MOST_IN_ALL: u64 = 0x4000_0000_0000_0000;

/// The end of a recording that supplies frames, once it is closed.
#[derive(Drop)]
pub struct ParkedCapture {
    pub(crate) capture: Capture,
}

impl Fits for ParkedCapture {
    ghost use Rattle.std.specs.Prelude.{◌≡◌};
    ghost use Rattle.af_record.specs.Ends.{capture_made};

    type Tag = Block;

    ghost fits = { λ block parked. capture_made parked.capture ≡ block };
}

/// The end of a recording that supplies frames, with a share of the block: it puts what there is room for, and loses and counts the rest.
///
/// Contracts see the block, and the end that does the work. No call takes memory or waits. It may be sent to another thread (`Send`).
#[derive(Drop)]
pub struct CaptureEnd {
    pub(crate) recording: Arc<Common<ParkedCapture>, Global>,
    pub(crate) capture: Capture,
}

impl Model for CaptureEnd {
    ghost use Rattle.std.specs.Prelude.{◌≡◌};
    ghost use Rattle.std.specs.Arc.{arc_value};
    ghost use Rattle.af_record.specs.Ends.{capture_made};
    ghost use Rattle.af_ends.specs.Recordings.{CaptureEndState};

    ghost Value = { CaptureEndState };

    ghost view = { λ e. record { block = arc_value e.recording; capture = e.capture } };

    ghost invariant = { λ e. capture_made e.capture ≡ arc_value e.recording };
}

/// The end of a recording from which frames are read, with a share of the block.
///
/// Contracts see the block, and the end that does the work. No call takes memory or waits. It may be sent to another thread (`Send`).
#[derive(Drop)]
pub struct ListenerEnd {
    pub(crate) recording: Arc<Common<ParkedCapture>, Global>,
    pub(crate) listener: Listener,
}

impl Model for ListenerEnd {
    ghost use Rattle.std.specs.Prelude.{◌≡◌};
    ghost use Rattle.std.specs.Arc.{arc_value};
    ghost use Rattle.af_record.specs.Ends.{listener_made};
    ghost use Rattle.af_ends.specs.Recordings.{ListenerEndState};

    ghost Value = { ListenerEndState };

    ghost view = { λ e. record { block = arc_value e.recording; listener = e.listener } };

    ghost invariant = { λ e. listener_made e.listener ≡ arc_value e.recording };
}

// The two ends of a new recording.
fn make(alloc: Global, frames: u32) -> Result<(CaptureEnd, ListenerEnd), Memory>
    requires { (1 ≤ frames) × (frames ≤ 8192) }
    ensures { IfOk result (λ r. IsOpenedRecord frames r.0 r.1) }
{
    let (block, capture, listener) = make_record(alloc, frames)?;
    let recording = Arc::new(alloc, Common::new(block))?;
    let theirs = Arc::try_clone(&recording)?;
    let capture = CaptureEnd { recording, capture };
    let listener = ListenerEnd {
        recording: theirs,
        listener,
    };
    Ok((capture, listener))
}

/// Opens a recording for `frames` frames, 1 to 8192: its two ends, which have done nothing.
///
/// Argument exactly if `frames` is outside that range. Memory if an allocation was refused.
pub fn open_record(alloc: Global, frames: u32) -> Result<(CaptureEnd, ListenerEnd), EndError>
    ensures opened { IfOk result (λ r. IsOpenedRecord frames r.0 r.1) }
    ensures size { IfOk result (λ r. (1 ≤ frames) × (frames ≤ 8192)) }
    ensures refused { IfErr result (λ e. RefusesSize frames e) }
{
    if frames == 0 || frames > MOST_FRAMES {
        return Err(EndError::Argument);
    }
    match make(alloc, frames) {
        Ok(ends) => Ok(ends),
        Err(Memory) => Err(EndError::Memory),
    }
}

// Supplies the frames of one call.
fn supply_in<L: Ledger>(
    blank: Blank,
    block: &Block,
    capture: &mut Capture,
    frames: &[Frame],
) -> Supplied
    requires ledger { (blank.name ≡ L.name) × (blank.parts ≡ L.parts) × (0 < blank.parts) }
    requires made { capture_made capture.old ≡ block.now }
    requires frames { (1 ≤ length frames.now) × (length frames.now ≤ 1024) }
    requires few { capture.old.supplied + length frames.now ≤ 2 ^ 62 }
    ensures made { capture_made capture.new ≡ block.now }
    ensures supplied { HasSupplied capture.old frames.now result capture.new }
{
    let mut steps = Steps::<L>::start(blank);
    capture.supply(block, frames, &mut steps)
}

// Reads to the places of one call.
fn read_in<L: Ledger>(
    blank: Blank,
    block: &Block,
    listener: &mut Listener,
    out: &mut [Frame],
) -> u32
    requires ledger { (blank.name ≡ L.name) × (blank.parts ≡ L.parts) × (0 < blank.parts) }
    requires made { listener_made listener.old ≡ block.now }
    requires places { (1 ≤ length out.old) × (length out.old ≤ 1024) }
    requires few { listener.old.total < 2 ^ 62 }
    ensures made { listener_made listener.new ≡ block.now }
    ensures count { HasRead listener.old.pass.part (length out.old) result listener.new.pass.part }
    ensures few { result ≤ length out.old }
    ensures frames { listener.new.pass.part.frames ≡ listener.old.pass.part.frames ++ map packed_word (take result out.new) }
    ensures rest { drop result out.new ≡ drop result out.old }
    ensures total { listener.new.total ≡ listener.old.total + result }
    ensures history { (reads : List (List ℕ)) → ReadBy reads listener.old → ReadBy (reads ++ map packed_word (take result out.new) ∷ []) listener.new }
{
    let mut steps = Steps::<L>::start(blank);
    listener.read(block, out, &mut steps)
}

// The two ends of a recording meet.
fn meet_in<L: Ledger>(blank: Blank, block: &Block, capture: &mut Capture, listener: &mut Listener)
    requires ledger { (blank.name ≡ L.name) × (blank.parts ≡ L.parts) × (0 < blank.parts) }
    requires from { capture_made capture.old ≡ block.now }
    requires to { listener_made listener.old ≡ block.now }
    ensures from { capture_made capture.new ≡ block.now }
    ensures met { RecordHasMet listener.old (record { capture = capture.new; listener = listener.new }) }
    ensures order { RecordHistory block.now.shape.frames (record { capture = capture.new; listener = listener.new }) }
    ensures history { (supplies : List Supply) (reads : List (List ℕ)) → CameBy supplies capture.new → ReadBy reads listener.new → IsCaptureHistory supplies reads }
    ensures calm { IsCalm capture.new.pass.part.events listener.new.pass.part }
{
    let mut steps = Steps::<L>::start(blank);
    meet_record(block, capture, listener, &mut steps);
}

impl CaptureEnd {
    /// Supplies these frames, up to 1024: as many of the first as there is room for are put, and the rest is lost and counted. Without frames the call does nothing.
    ///
    /// Argument exactly if there are more than 1024 frames. Limit exactly if there are no more, but more than 2^62 frames would be supplied in all. No other refusal comes.
    pub fn supply(&mut self, frames: &[Frame]) -> Result<Supplied, EndError>
        ensures block { self.new.block ≡ self.old.block }
        ensures answer { Supplies self.old.capture frames.now result self.new.capture }
    {
        if frames.is_empty() {
            return Ok(Supplied { put: 0, lost: 0 });
        }
        if frames.len() > MOST_AT_ONCE {
            return Err(EndError::Argument);
        }
        if self.capture.supplied() > MOST_IN_ALL - frames.len() as u64 {
            return Err(EndError::Limit);
        }
        Ok(supply_in::<Brand>(
            Blank::new(1),
            self.recording.what(),
            &mut self.capture,
            frames,
        ))
    }

    /// How many frames were supplied.
    pub fn supplied(&self) -> u64
        ensures { result ≡ self.now.capture.supplied }
    {
        self.capture.supplied()
    }

    /// How many of the frames supplied were lost.
    pub fn overrun(&self) -> u64
        ensures value { result ≡ self.now.capture.overrun }
        ensures rest { self.now.capture.supplied ≡ length self.now.capture.pass.part.frames + result }
    {
        self.capture.overrun()
    }

    /// Closes the end that supplies. Its list is left with the recording, for the end that reads. No refusal comes.
    pub fn close(self) {
        let CaptureEnd { recording, capture } = self;
        recording.park(ParkedCapture { capture });
    }
}

impl ListenerEnd {
    /// Reads as many frames as are there and `out` has places for, up to 1024, to the front of `out`, and answers how many. The rest of `out` stays. Without places the call does nothing.
    ///
    /// Limit exactly if there are places, and 2^62 frames were read before. No other refusal comes.
    pub fn read(&mut self, out: &mut [Frame]) -> Result<u32, EndError>
        ensures block { self.new.block ≡ self.old.block }
        ensures answer { Listens self.old.listener (length out.old) result self.new.listener }
        ensures few { count_in result ≤ length out.old }
        ensures frames { self.new.listener.pass.part.frames ≡ self.old.listener.pass.part.frames ++ map packed_word (take (count_in result) out.new) }
        ensures rest { drop (count_in result) out.new ≡ drop (count_in result) out.old }
        ensures total { self.new.listener.total ≡ self.old.listener.total + count_in result }
    {
        if out.is_empty() {
            return Ok(0);
        }
        if self.listener.total() >= MOST_IN_ALL {
            return Err(EndError::Limit);
        }
        let most = out.len().min(MOST_AT_ONCE);
        Ok(read_in::<Brand>(
            Blank::new(1),
            self.recording.what(),
            &mut self.listener,
            &mut out[..most],
        ))
    }

    /// How many frames were read.
    pub fn total(&self) -> u64
        ensures value { result ≡ self.now.listener.total }
        ensures frames { result ≡ length self.now.listener.pass.part.frames }
    {
        self.listener.total()
    }

    /// Closes the end that reads after the end that supplies: the two meet, and the recording is freed. If the end that supplies isn't closed, the end that reads is given back as it is.
    ///
    /// Whatever the order in which the steps of the two came, the frames read are a beginning of those put: each supplied frame was read once in its order, is still queued, or was lost and counted. No flags seen had INVALID, no flush was seen, nothing was dropped, and neither end was shut.
    pub fn close(self) -> Result<Recorded, ListenerEnd>
        ensures open { IfErr result (λ l. l ≡ self) }
        ensures from { IfOk result (λ r. capture_made r.capture ≡ self.block) }
        ensures met { IfOk result (λ r. RecordHasMet self.listener r) }
        ensures order { IfOk result (λ r. RecordHistory self.block.shape.frames r) }
        ensures history { IfOk result (λ r. (supplies : List Supply) (reads : List (List ℕ)) → CameBy supplies r.capture → ReadBy reads r.listener → IsCaptureHistory supplies reads) }
        ensures calm { IfOk result (λ r. IsCalm r.capture.pass.part.events r.listener.pass.part) }
    {
        let Some(parked) = self.recording.parked() else {
            return Err(self);
        };
        let ListenerEnd {
            recording,
            mut listener,
        } = self;
        let mut capture = parked.capture;
        meet_in::<Brand>(Blank::new(1), recording.what(), &mut capture, &mut listener);
        Ok(Recorded { capture, listener })
    }
}

/// A recording whose two ends were closed, and have met.
#[derive(Drop)]
pub struct Recorded {
    capture: Capture,
    listener: Listener,
}

impl Model for Recorded {
    ghost use Rattle.af_ends.specs.Recordings.{RecordedState};

    ghost Value = { RecordedState };

    ghost view = { λ r. record { capture = r.capture; listener = r.listener } };
}

impl Recorded {
    /// How many frames were supplied.
    pub fn supplied(&self) -> u64
        ensures { result ≡ self.now.capture.supplied }
    {
        self.capture.supplied()
    }

    /// How many of the frames supplied were lost.
    pub fn overrun(&self) -> u64
        ensures { result ≡ self.now.capture.overrun }
    {
        self.capture.overrun()
    }

    /// How many frames were read.
    pub fn total(&self) -> u64
        ensures { result ≡ self.now.listener.total }
    {
        self.listener.total()
    }
}
