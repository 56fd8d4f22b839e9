//! The command `record`: what it makes of a file.
ghost use Rattle.std.specs.Prelude.{◌≡◌, ◌+◌, ◌*◌, ◌++◌, ◌≤◌, ℕ, List, [], Err, IfOk, OnOk, Some, length, drop, map, min, take, string_bytes};
ghost use Rattle.std.specs.List.{flat_map};
ghost use Rattle.af_base.specs.Sample.{packed_word, pcm_bytes};
ghost use Rattle.af_io.specs.Files.{SameFiles};
ghost use Rattle.af_offline.specs.Asked.{record_asked};
ghost use Rattle.af_offline.specs.Asking.{output_job};
ghost use Rattle.af_offline.specs.Captured.{counts_in, state_of, word_bytes, IsTape};
ghost use Rattle.af_words.specs.Asking.{AreSizes};
ghost use Rattle.af_offline.specs.Line.{counts_text};
ghost use Rattle.af_offline.specs.Recorded.{Counts, counts_of, empty, frames_heard, period, periods, read_up_to, recording_of};
ghost use Rattle.af_offline.specs.Status.{HasFault, IsNoUsage, Meets};

use crate::load::{MOST_FILE, frames_in, load_file};
use crate::outputs::Output;
use crate::status::{Role, Stop};
use af_base::{Frame, Memory};
use af_io::{Store, bytes_of};
use af_record::InHand;
use af_words::Sizes;
use std::alloc::{AllocError, Global};
use std::fmt;

/// How many frames were supplied, read and lost.
#[derive(Clone, Copy, Debug, PartialEq, Eq)]
struct Counted {
    supplied: u64,
    read: u64,
    lost: u64,
}

impl fmt::Display for Counted {
    ghost output = { λ c. Some (counts_text (counts_in c)) };

    fn fmt<W: fmt::Write>(&self, f: &mut fmt::Formatter<W>) -> fmt::Result {
        writeln!(
            f,
            "supplied {} read {} lost {}",
            self.supplied, self.read, self.lost
        )
    }
}

/// The line of these counts.
fn counts_line(alloc: Global, counts: &Counted) -> Result<String, AllocError>
    ensures { IfOk result (λ text. string_bytes text ≡ counts_text (counts_in counts.now)) }
{
    format!(in alloc; "{counts}")
}

/// Reads once, and adds the bytes of what was read. Answers how many frames.
fn read_once(hand: &mut InHand, places: &mut [Frame], bytes: &mut Vec<u8>) -> Result<u32, Memory>
    requires places { (1 ≤ length places.old) × (length places.old ≤ 1024) }
    requires few { length hand.old.read ≤ 2097152 }
    ensures count { IfOk result (λ count. count ≡ min (length places.old) (length hand.old.queued)) }
    ensures hand { OnOk result (hand.new ≡ (record hand.old { queued = drop (length places.old) hand.old.queued; read = hand.old.read ++ take (length places.old) hand.old.queued })) }
    ensures bytes { OnOk result (bytes.old.items ≡ flat_map word_bytes hand.old.read → bytes.new.items ≡ flat_map word_bytes hand.new.read) }
{
    let count = hand.read(places);
    bytes_of(&places[..count as usize], bytes)?;
    Ok(count)
}

/// A recording at work: its two ends, the places of a read, the bytes of what was read, and how many frames were lost.
#[derive(Drop)]
struct Tape {
    hand: InHand,
    places: Vec<Frame>,
    bytes: Vec<u8>,
    lost: u64,
}

impl Tape {
    /// A recording before its first period.
    fn make(alloc: Global, sizes: Sizes, frames: usize) -> Result<Tape, Memory>
        requires sizes { AreSizes sizes }
        requires few { frames ≤ 2097152 }
        ensures { IfOk result (λ tape. IsTape sizes tape × (state_of tape ≡ empty) × (tape.hand.supplied ≡ 0)) }
    {
        Ok(Tape {
            hand: InHand::make(alloc, sizes.room)?,
            places: vec![in alloc; Frame { left: 0, right: 0 }; sizes.read as usize]?,
            bytes: Vec::with_capacity(alloc, 4 * frames)?,
            lost: 0,
        })
    }

    /// Reads once, and adds the bytes of what was read. Answers how many frames.
    fn read(&mut self, sizes: Sizes) -> Result<u32, Memory>
        requires tape { IsTape sizes self.old }
        ensures tape { OnOk result (IsTape sizes self.new) }
        ensures state { OnOk result (state_of self.new ≡ read_up_to sizes.read (state_of self.old)) }
        ensures count { IfOk result (λ count. count ≡ min sizes.read (length self.old.hand.queued)) }
        ensures supplied { OnOk result (self.new.hand.supplied ≡ self.old.hand.supplied) }
    {
        let count = read_once(&mut self.hand, &mut self.places, &mut self.bytes)?;
        Ok(count)
    }

    /// A supply of these frames, and a read.
    fn period(&mut self, sizes: Sizes, frames: &[Frame]) -> Result<(), Memory>
        requires tape { IsTape sizes self.old }
        requires frames { (1 ≤ length frames.now) × (length frames.now ≤ 1024) }
        requires few { self.old.hand.supplied + length frames.now ≤ 2097152 }
        ensures tape { OnOk result (IsTape sizes self.new) }
        ensures state { OnOk result (state_of self.new ≡ period sizes (map packed_word frames.now) (state_of self.old)) }
        ensures supplied { OnOk result (self.new.hand.supplied ≡ self.old.hand.supplied + length frames.now) }
    {
        let supplied = self.hand.supply(frames);
        self.lost += u64::from(supplied.lost);
        self.read(sizes)?;
        Ok(())
    }

    /// Supplies all frames, in periods.
    fn supply_all(&mut self, sizes: Sizes, frames: &[Frame]) -> Result<(), Memory>
        requires tape { IsTape sizes self.old }
        requires few { self.old.hand.supplied + length frames.now ≤ 2097152 }
        ensures tape { OnOk result (IsTape sizes self.new) }
        ensures state { OnOk result (state_of self.new ≡ periods sizes (length frames.now) (map packed_word frames.now) (state_of self.old)) }
        ensures supplied { OnOk result (self.new.hand.supplied ≡ self.old.hand.supplied + length frames.now) }
    {
        let mut rest = frames;
        while !rest.is_empty() {
            let len = rest.len().min(sizes.supply as usize);
            self.period(sizes, &rest[..len])?;
            rest = &rest[len..];
        }
        Ok(())
    }

    /// Reads until a read gives nothing.
    fn drain(&mut self, sizes: Sizes) -> Result<(), Memory>
        requires tape { IsTape sizes self.old }
        ensures tape { OnOk result (IsTape sizes self.new) }
        ensures read { OnOk result (self.new.hand.read ≡ frames_heard (state_of self.old)) }
        ensures queued { OnOk result (self.new.hand.queued ≡ []) }
        ensures lost { OnOk result (self.new.lost ≡ self.old.lost) }
        ensures supplied { OnOk result (self.new.hand.supplied ≡ self.old.hand.supplied) }
    {
        loop {
            let count = self.read(sizes)?;
            if count == 0 {
                return Ok(());
            }
        }
    }
}

/// Records frames, in periods.
fn record_frames(alloc: Global, frames: &[Frame], sizes: Sizes) -> Result<Tape, Memory>
    requires sizes { AreSizes sizes }
    requires few { length frames.now ≤ 2097152 }
    ensures bytes { IfOk result (λ tape. tape.bytes.items ≡ pcm_bytes (frames_heard (recording_of sizes frames.now))) }
    ensures lost { IfOk result (λ tape. tape.lost ≡ (recording_of sizes frames.now).lost) }
    ensures counted { IfOk result (λ tape. length (frames_heard (recording_of sizes frames.now)) + tape.lost ≡ length frames.now) }
{
    let mut tape = Tape::make(alloc, sizes, frames.len())?;
    tape.supply_all(sizes, frames)?;
    tape.drain(sizes)?;
    Ok(tape)
}

/// What is made of frames: their recording, and its line.
fn output_of(alloc: Global, frames: &[Frame], sizes: Sizes) -> Result<Output, Memory>
    requires sizes { AreSizes sizes }
    requires few { length frames.now ≤ 2097152 }
    ensures bytes { IfOk result (λ output. output.bytes.items ≡ pcm_bytes (frames_heard (recording_of sizes frames.now))) }
    ensures line { IfOk result (λ output. string_bytes output.line ≡ counts_text (counts_of sizes frames.now)) }
{
    let tape = record_frames(alloc, frames, sizes)?;
    let supplied = frames.len() as u64;
    let counts = Counted {
        supplied,
        read: supplied - tape.lost,
        lost: tape.lost,
    };
    Ok(Output {
        line: counts_line(alloc, &counts)?,
        bytes: tape.bytes,
    })
}

/// Loads a file and records it. Nothing is written yet.
pub fn record_output<S: Store>(
    alloc: Global,
    store: &mut S,
    input: &str,
    sizes: Sizes,
) -> Result<Output, Stop>
    requires { AreSizes sizes }
    ensures made { (target : List ℕ) → S.told store.old → Meets (output_job target) result (record_asked (S.files store.old) input.now target sizes) }
    ensures line { IfOk result (λ output. (counts : Counts) × (string_bytes output.line ≡ counts_text counts)) }
    ensures same { S.told store.old → SameFiles (S.files store.old) (S.files store.new) }
    ensures tells { S.told store.old → S.told store.new }
    ensures cause { HasFault (S.faults store.old) (S.faults store.new) result }
    ensures words { IsNoUsage result }
{
    let bytes = load_file(alloc, store, input, Role::Track(0), MOST_FILE)?;
    let pcm = frames_in(alloc, 0, false, &bytes)?;
    Ok(output_of(alloc, pcm.frames(), sizes)?)
}
