//! The end of a track.
ghost use Rattle.std.specs.Prelude.{◌≡◌, ◌+◌, ◌/◌, ◌%◌, ◌==◌, ◌≤◌, map, take, length};
ghost use Rattle.af_base.specs.Sample.{packed_word};
ghost use Rattle.af_cblk.specs.Sides.{client_made};
ghost use Rattle.af_client.specs.Calls.{Releases};
ghost use Rattle.af_ends.specs.Streams.{count_in, IsStreamClient, SetsGains, Writes};
ghost use Rattle.af_mixer_ends.specs.Tracks.{FlushesTrack, IsCommandClient, IsTrackEnd, Sends, Stops, Tells, TellsWord, with_command, with_stream};

use crate::error::CommandError;
use crate::sending::send;
use af_base::Frame;
use af_cblk::Block;
use af_ends::{
    EndError, client_clear_disabled, client_flush, client_set_gains, client_status, client_write,
};
use af_engine::{Shared, TrackEnds};
use af_life::{FLUSH, PAUSE, REMOVE, START, STOP};
use std::alloc::Global;
use std::marker::Model;
use std::sync::Arc;

// More frames than the argument of a STOP can tell.
const TOO_MANY: u64 = 0x1_0000_0000;

/// The end of a track, which an app's thread uses: AOSP's `AudioTrack`, with a share of the mixer's objects.
///
/// Contracts see what is shared, and the two proxies with the lists of all that they did. It pokes never, so no call of it answers Corrupt. No call takes memory or waits, and it may be sent to another thread.
#[derive(Drop)]
pub struct TrackEnd {
    pub(crate) shared: Arc<Shared, Global>,
    pub(crate) ends: TrackEnds,
}

impl Model for TrackEnd {
    ghost use Rattle.std.specs.Arc.{arc_value};
    ghost use Rattle.af_mixer_ends.specs.Tracks.{TrackState, IsTrackEnd};

    ghost Value = { TrackState };

    ghost view = { λ e. record { shared = arc_value e.shared; ends = e.ends } };

    ghost invariant = { λ e. IsTrackEnd (arc_value e.shared) e.ends };
}

/// What a track is told of its life.
#[derive(Clone, Copy, Debug, PartialEq, Eq)]
pub struct TrackStatus {
    /// The number of its state, 0 to 9 in the order of af_life's `LifeState`, or 15 where it was shut. It is 0 before the first turn.
    pub life: u32,
    /// A stop let all that was released be consumed, and no start came since.
    pub drained: bool,
    /// How many commands are settled, modulo 2^24.
    pub settled: u32,
    /// The flags before DISABLED (0x08) was cleared: UNDERRUN (0x01) if frames were missing, INVALID (0x04) if the stream is dead.
    pub flags: u32,
    /// The frames released so far.
    pub released: u64,
}

// The block of a track's frames.
fn stream_of<'a>(shared: &'a Shared, ends: &TrackEnds) -> &'a Block
    requires { IsTrackEnd shared.now ends.now }
    ensures is { result.now ≡ client_made ends.now.stream.pass }
    ensures ready { IsStreamClient result.now ends.now.stream }
{
    let streams = shared.links().streams;
    &streams[ends.track as usize]
}

// The block of a track's commands.
fn commands_of<'a>(shared: &'a Shared, ends: &TrackEnds) -> &'a Block
    requires { IsTrackEnd shared.now ends.now }
    ensures is { result.now ≡ client_made ends.now.command.pass }
    ensures ready { IsCommandClient result.now ends.now.command }
{
    let commands = shared.links().commands;
    &commands[ends.track as usize]
}

// A status word by its parts.
fn status_of(word: u32, flags: u32, released: u64) -> TrackStatus
    ensures word { TellsWord word result }
    ensures rest { (result.flags ≡ flags) × (result.released ≡ released) }
{
    TrackStatus {
        life: word % 16,
        drained: word / 16 % 2 == 1,
        settled: word / 256,
        flags,
        released,
    }
}

impl TrackEnd {
    // Sends a command.
    fn command(&mut self, code: u32, argument: u32) -> Result<(), CommandError>
        ensures sends { Sends self.old.ends.command code argument result self.new.ends.command }
        ensures same { self.new ≡ with_command self.old self.new.ends.command }
    {
        let block = commands_of(&*self.shared, &self.ends);
        send(block, &mut self.ends.command, code, argument)
    }

    /// The number of its track.
    pub fn track(&self) -> u32
        ensures { result ≡ self.now.ends.track }
    {
        self.ends.track
    }

    /// Opens the track, which is absent before: it is the first command of a track. The fast mixer's slots are given in the order in which the normal mixer sees this of tracks that ask for one.
    pub fn open(&mut self) -> Result<(), CommandError>
        ensures sends { Sends self.old.ends.command 1 0 result self.new.ends.command }
        ensures same { self.new ≡ with_command self.old self.new.ends.command }
    {
        self.command(af_life::OPEN, 0)
    }

    /// Plays from the next turn on, once the normal mixer has seen each flush that was asked for.
    pub fn start(&mut self) -> Result<(), CommandError>
        ensures sends { Sends self.old.ends.command 2 self.old.ends.stream.flushes result self.new.ends.command }
        ensures same { self.new ≡ with_command self.old self.new.ends.command }
    {
        let flushes = self.ends.stream.flushes();
        self.command(START, flushes)
    }

    /// Pauses: what was released stays, and a start goes on from there.
    pub fn pause(&mut self) -> Result<(), CommandError>
        ensures sends { Sends self.old.ends.command 3 0 result self.new.ends.command }
        ensures same { self.new ≡ with_command self.old self.new.ends.command }
    {
        self.command(PAUSE, 0)
    }

    /// Stops once all frames released so far are consumed.
    ///
    /// Limit also if 2^32 frames or more were released, as a STOP can't tell so many: then pause and flush.
    pub fn stop(&mut self) -> Result<(), CommandError>
        ensures stops { Stops self.old.ends.stream self.old.ends.command result self.new.ends.command }
        ensures same { self.new ≡ with_command self.old self.new.ends.command }
    {
        let released = self.ends.stream.released();
        if released >= TOO_MANY {
            return Err(CommandError::Limit);
        }
        self.command(STOP, released as u32)
    }

    /// Ends the track. It never plays again.
    pub fn remove(&mut self) -> Result<(), CommandError>
        ensures sends { Sends self.old.ends.command 6 0 result self.new.ends.command }
        ensures same { self.new ≡ with_command self.old self.new.ends.command }
    {
        self.command(REMOVE, 0)
    }

    /// Asks that the frames released so far be discarded, and no later ones, and tells the normal mixer of it: a track that is paused or stopped is flushed then. A start after it plays only what is released later.
    ///
    /// Limit exactly if there were as many flushes as flush words can tell apart, and then nothing is done. Where the command is refused the frames are discarded none the less, and the call may be made again.
    pub fn flush(&mut self) -> Result<(), CommandError>
        ensures { FlushesTrack self.old result self.new }
    {
        let block = stream_of(&*self.shared, &self.ends);
        match client_flush(block, &mut self.ends.stream) {
            Ok(_count) => self.command(FLUSH, 0),
            Err(_) => Err(CommandError::Limit),
        }
    }

    /// Releases the first of these frames, as many as there is room for before the last cell, and answers how many: 0 if the block is full, or there are none to write. The rest can be written by a second call, after the wrap.
    ///
    /// Limit exactly if there are frames to write, and 2^62 were released before. Dead exactly if INVALID is seen. No other refusal comes.
    pub fn write(&mut self, frames: &[Frame]) -> Result<u32, EndError>
        ensures answer { Writes self.old.ends.stream (length frames.now) result self.new.ends.stream }
        ensures releases { Releases self.old.ends.stream (map packed_word (take (count_in result) frames.now)) self.new.ends.stream }
        ensures few { count_in result ≤ length frames.now }
        ensures kept { (self.new.ends.stream.flushes ≡ self.old.ends.stream.flushes) × (self.new.ends.stream.released ≡ self.old.ends.stream.released + count_in result) }
        ensures same { self.new ≡ with_stream self.old self.new.ends.stream }
    {
        let block = stream_of(&*self.shared, &self.ends);
        client_write(block, &mut self.ends.stream, frames)
    }

    /// Sets the gains of the two sides, each in 4.12, from 0 to unity (0x1000).
    ///
    /// Argument exactly if one is above unity.
    pub fn set_gains(&mut self, left: u16, right: u16) -> Result<(), EndError>
        ensures sets { SetsGains self.old.ends.stream left right result self.new.ends.stream }
        ensures same { self.new ≡ with_stream self.old self.new.ends.stream }
    {
        let block = stream_of(&*self.shared, &self.ends);
        client_set_gains(block, &mut self.ends.stream, left, right)
    }

    /// What the normal mixer said of the track last, and the flags of the stream, of which DISABLED is cleared.
    pub fn status(&mut self) -> TrackStatus
        ensures { Tells self.old result self.new }
    {
        let commands = commands_of(&*self.shared, &self.ends);
        let word = client_status(commands, &mut self.ends.command);
        let stream = stream_of(&*self.shared, &self.ends);
        let flags = client_clear_disabled(stream, &mut self.ends.stream);
        status_of(word, flags, self.ends.stream.released())
    }
}
