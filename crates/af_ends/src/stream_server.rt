//! The end of a stream that reads.
ghost use Rattle.std.specs.Prelude.{◌≡◌, ℕ, ◌+◌, ◌<◌, ◌≤◌, ◌++◌, min, [], map, take, drop, length};
ghost use Rattle.af_base.specs.declared.event.ServerEvent.TheVariants as server_event;
ghost use Rattle.af_base.specs.Gain.{left_half, right_half};
ghost use Rattle.af_base.specs.Log.{count_seen};
ghost use Rattle.af_base.specs.Sample.{packed_word};
ghost use Rattle.af_model.specs.ServerCalls.{flushes_by, shown_by};
ghost use Rattle.af_record.specs.Ends.{takes};
ghost use Rattle.af_server.specs.Looks.{WithinAsk};
ghost use Rattle.af_server.specs.Order.{counted, did, server_kept_of};
ghost use Rattle.af_ends.specs.Streams.{IsStreamServer, found_by, frames_in, dropped_in, Finds, Reads, Tallies};

use crate::common::Common;
use crate::error::EndError;
use crate::stream::ParkedClient;
use af_base::{DISABLED, Frame, Gains, INVALID, Seen, Steps};
use af_cblk::Block;
use af_server::Server;
use std::alloc::Global;
use std::marker::{Brand, Model};
use std::sync::Arc;
use std::sync::ledger::{Blank, Ledger};

/// The end of a stream that reads: AOSP's `AudioTrackServerProxy`, with a share of the control block.
///
/// Contracts see the block, and the proxy with the list of all that it did and the frames that it took. No call takes memory or waits. It may be sent to another thread (`Send`).
#[derive(Drop)]
pub struct StreamServer {
    pub(crate) stream: Arc<Common<ParkedClient>, Global>,
    pub(crate) server: Server,
}

impl Model for StreamServer {
    ghost use Rattle.std.specs.Arc.{arc_value};
    ghost use Rattle.af_ends.specs.Streams.{StreamServerState, IsStreamServer};

    ghost Value = { StreamServerState };

    ghost view = { λ e. record { block = arc_value e.stream; server = e.server } };

    ghost invariant = { λ e. IsStreamServer (arc_value e.stream) e.server };
}

/// What the server of a stream found: so many frames, or a flush instead, which discarded so many.
#[derive(Clone, Copy, Debug, PartialEq, Eq)]
pub struct Found {
    pub frames: u32,
    pub flushed: Option<u32>,
}

// The answer of an end, by what its proxy saw in a look.
fn found_by(seen: Seen) -> Result<Found, EndError>
    ensures { result ≡ found_by seen }
{
    match seen {
        Seen::Frames { count } => Ok(Found {
            frames: count,
            flushed: None,
        }),
        Seen::Flushed { dropped } => Ok(Found {
            frames: 0,
            flushed: Some(dropped),
        }),
        Seen::Shut { .. } => Err(EndError::Corrupt),
        _ => Ok(Found {
            frames: 0,
            flushed: None,
        }),
    }
}

// Takes the frames that a look showed, if it showed some, to the front of `out`.
fn take_shown<L: Ledger>(
    block: &Block,
    server: &mut Server,
    seen: Seen,
    out: &mut [Frame],
    steps: &mut Steps<L>,
)
    requires ready { IsStreamServer block.now server.old }
    requires shown { server.old.shown ≡ shown_by seen }
    requires within { WithinAsk (length out.old) seen }
    ensures ready { IsStreamServer block.now server.new }
    ensures few { count_seen seen ≤ length out.old }
    ensures events { server.new.pass.part.events ≡ server.old.pass.part.events ++ takes (count_seen seen) }
    ensures taken { server.new.pass.part.frames ≡ server.old.pass.part.frames ++ map packed_word (take (count_seen seen) out.new) }
    ensures rest { drop (count_seen seen) out.new ≡ drop (count_seen seen) out.old }
    ensures consumed { server.new.consumed ≡ counted (server.old.consumed + count_seen seen) }
    ensures shut { server.new.shut ≡ server.old.shut }
{
    if let Seen::Frames { count } = seen {
        server.take(block, &mut out[..count as usize], steps);
    }
}

// Looks for frames, and takes what the look shows.
fn read_in<L: Ledger>(
    blank: Blank,
    block: &Block,
    server: &mut Server,
    out: &mut [Frame],
) -> Result<Found, EndError>
    requires ledger { (blank.name ≡ L.name) × (blank.parts ≡ L.parts) × (0 < blank.parts) }
    requires ready { IsStreamServer block.now server.old }
    requires some { 1 ≤ length out.old }
    ensures ready { IsStreamServer block.now server.new }
    ensures answer { Finds server.old (min (length out.old) block.now.shape.frames) result (takes (frames_in result)) server.new }
    ensures few { frames_in result ≤ length out.old }
    ensures taken { server.new.pass.part.frames ≡ server.old.pass.part.frames ++ map packed_word (take (frames_in result) out.new) }
    ensures rest { drop (frames_in result) out.new ≡ drop (frames_in result) out.old }
    ensures consumed { server.new.consumed ≡ counted (server.old.consumed + dropped_in result + frames_in result) }
{
    let mut steps = Steps::<L>::start(blank);
    let ask = out.len().min(block.frames() as usize) as u32;
    let look = server.look(block, ask, &mut steps);
    take_shown(block, server, look.seen, out, &mut steps);
    found_by(look.seen)
}

// Looks for frames, and takes none.
fn available_in<L: Ledger>(
    blank: Blank,
    block: &Block,
    server: &mut Server,
) -> Result<Found, EndError>
    requires ledger { (blank.name ≡ L.name) × (blank.parts ≡ L.parts) × (0 < blank.parts) }
    requires ready { IsStreamServer block.now server.old }
    ensures ready { IsStreamServer block.now server.new }
    ensures answer { Finds server.old block.now.shape.frames result [] server.new }
    ensures frames { server.new.pass.part.frames ≡ server.old.pass.part.frames }
    ensures consumed { server.new.consumed ≡ counted (server.old.consumed + dropped_in result) }
{
    let mut steps = Steps::<L>::start(blank);
    found_by(server.look(block, block.frames(), &mut steps).seen)
}

// Loads the word of two gains.
fn gains_in<L: Ledger>(blank: Blank, block: &Block, server: &mut Server) -> u32
    requires ledger { (blank.name ≡ L.name) × (blank.parts ≡ L.parts) × (0 < blank.parts) }
    requires ready { IsStreamServer block.now server.old }
    ensures ready { IsStreamServer block.now server.new }
    ensures saw { server.new ≡ did server.old (server_event.SawGain result) }
{
    let mut steps = Steps::<L>::start(blank);
    server.gains(block, &mut steps)
}

// Counts frames as missing, and sets UNDERRUN.
fn tally_in<L: Ledger>(blank: Blank, block: &Block, server: &mut Server, missing: u32)
    requires ledger { (blank.name ≡ L.name) × (blank.parts ≡ L.parts) × (0 < blank.parts) }
    requires ready { IsStreamServer block.now server.old }
    requires missing { 1 ≤ missing }
    ensures ready { IsStreamServer block.now server.new }
    ensures tallied { server.new ≡ did (did server.old (server_event.Tally missing)) (server_event.SetFlags 1) }
{
    let mut steps = Steps::<L>::start(blank);
    server.tally(block, missing, &mut steps);
}

// Sets these bits of the flags.
fn flags_in<L: Ledger>(blank: Blank, block: &Block, server: &mut Server, bits: u32)
    requires ledger { (blank.name ≡ L.name) × (blank.parts ≡ L.parts) × (0 < blank.parts) }
    requires ready { IsStreamServer block.now server.old }
    ensures ready { IsStreamServer block.now server.new }
    ensures set { server.new ≡ did server.old (server_event.SetFlags bits) }
{
    let mut steps = Steps::<L>::start(blank);
    server.set_flags(block, bits, &mut steps);
}

// Stores the status word.
fn status_in<L: Ledger>(blank: Blank, block: &Block, server: &mut Server, word: u32)
    requires ledger { (blank.name ≡ L.name) × (blank.parts ≡ L.parts) × (0 < blank.parts) }
    requires ready { IsStreamServer block.now server.old }
    ensures ready { IsStreamServer block.now server.new }
    ensures stored { server.new ≡ did server.old (server_event.SetStatus word) }
{
    let mut steps = Steps::<L>::start(blank);
    server.set_status(block, word, &mut steps);
}

impl StreamServer {
    /// Takes as many frames as are there and `out` has places for, to the front of `out`, and answers how many. The rest of `out` stays. Without places the call does nothing.
    ///
    /// A new flush is noticed first: then the frames that were released before it are discarded, and this call takes none.
    ///
    /// Corrupt exactly if front and rear do not fit the block, in this call or in an earlier one. If the client is a `StreamClient`, that never comes, as `close` shows. No other refusal comes.
    pub fn read(&mut self, out: &mut [Frame]) -> Result<Found, EndError>
        ensures block { self.new.block ≡ self.old.block }
        ensures answer { Reads self.old.block self.old.server (length out.old) result self.new.server }
        ensures few { frames_in result ≤ length out.old }
        ensures taken { self.new.server.pass.part.frames ≡ self.old.server.pass.part.frames ++ map packed_word (take (frames_in result) out.new) }
        ensures rest { drop (frames_in result) out.new ≡ drop (frames_in result) out.old }
        ensures consumed { 1 ≤ length out.old → self.new.server.consumed ≡ counted (self.old.server.consumed + dropped_in result + frames_in result) }
    {
        if out.is_empty() {
            return Ok(Found {
                frames: 0,
                flushed: None,
            });
        }
        read_in::<Brand>(Blank::new(1), self.stream.what(), &mut self.server, out)
    }

    /// How many frames are there. The call takes none of them. It notices a flush as `read` does, and refuses as `read` does: Corrupt exactly if front and rear do not fit the block, in this call or in an earlier one.
    pub fn available(&mut self) -> Result<Found, EndError>
        ensures block { self.new.block ≡ self.old.block }
        ensures answer { Finds self.old.server self.old.block.shape.frames result [] self.new.server }
        ensures frames { self.new.server.pass.part.frames ≡ self.old.server.pass.part.frames }
        ensures consumed { self.new.server.consumed ≡ counted (self.old.server.consumed + dropped_in result) }
    {
        available_in::<Brand>(Blank::new(1), self.stream.what(), &mut self.server)
    }

    /// The gains that the client set last, each in 4.12 and clamped to unity (0x1000).
    pub fn gains(&mut self) -> Gains
        ensures block { self.new.block ≡ self.old.block }
        ensures saw { (word : ℕ) × (self.new.server ≡ did self.old.server (server_event.SawGain word)) × (result ≡ (min (left_half word) 4096, min (right_half word) 4096)) }
    {
        let word = gains_in::<Brand>(Blank::new(1), self.stream.what(), &mut self.server);
        Gains::clamped(word)
    }

    /// Counts so many frames as missing, and sets UNDERRUN (0x01).
    ///
    /// Argument exactly if `missing` is 0. No other refusal comes.
    pub fn tally(&mut self, missing: u32) -> Result<(), EndError>
        ensures block { self.new.block ≡ self.old.block }
        ensures tallied { Tallies self.old.server missing result self.new.server }
    {
        if missing == 0 {
            return Err(EndError::Argument);
        }
        tally_in::<Brand>(Blank::new(1), self.stream.what(), &mut self.server, missing);
        Ok(())
    }

    /// Sets INVALID (0x04): the client writes no more.
    pub fn invalidate(&mut self)
        ensures block { self.new.block ≡ self.old.block }
        ensures set { self.new.server ≡ did self.old.server (server_event.SetFlags 4) }
    {
        flags_in::<Brand>(Blank::new(1), self.stream.what(), &mut self.server, INVALID);
    }

    /// Sets DISABLED (0x08), which the client clears.
    pub fn disable(&mut self)
        ensures block { self.new.block ≡ self.old.block }
        ensures set { self.new.server ≡ did self.old.server (server_event.SetFlags 8) }
    {
        flags_in::<Brand>(
            Blank::new(1),
            self.stream.what(),
            &mut self.server,
            DISABLED,
        );
    }

    /// Stores the status word, which the client sees.
    pub fn set_status(&mut self, word: u32)
        ensures block { self.new.block ≡ self.old.block }
        ensures stored { self.new.server ≡ did self.old.server (server_event.SetStatus word) }
    {
        status_in::<Brand>(Blank::new(1), self.stream.what(), &mut self.server, word);
    }

    /// How many frames were taken and discarded together, up to 2^63 - 1.
    pub fn consumed(&self) -> u64
        ensures value { result ≡ self.now.server.consumed }
        ensures list { result ≡ counted (server_kept_of self.now.server.pass.part).consumed }
    {
        self.server.consumed()
    }

    /// How many flushes the client had asked for, by the last one that was noticed.
    pub fn flush_seen(&self) -> u32
        ensures value { result ≡ self.now.server.flushes }
        ensures list { result ≡ flushes_by self.now.server.pass.part.shape.wrap (server_kept_of self.now.server.pass.part).noticed }
    {
        self.server.flush_seen()
    }

    /// How many frames the block may hold.
    pub fn frames(&self) -> u32
        ensures { result ≡ self.now.block.shape.frames }
    {
        self.stream.what().frames()
    }
}
