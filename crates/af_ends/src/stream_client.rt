//! The end of a stream that writes.
ghost use Rattle.std.specs.Prelude.{◌≡◌, ◌+◌, ◌≤◌, map, take, length};
ghost use Rattle.af_base.specs.declared.event.ClientEvent.TheVariants as client_event;
ghost use Rattle.af_base.specs.Sample.{packed_word};
ghost use Rattle.af_model.specs.History.{flushes_of};
ghost use Rattle.af_cblk.specs.Parts.{client_did};
ghost use Rattle.af_client.specs.Calls.{Releases};
ghost use Rattle.af_ends.specs.Streams.{count_in, Writes, Flushes, SetsGains};

use crate::client_calls::{
    client_clear_disabled, client_flush, client_set_gains, client_status, client_write,
};
use crate::common::Common;
use crate::error::EndError;
use crate::stream::ParkedClient;
use af_base::Frame;
use af_client::Client;
use std::alloc::Global;
use std::marker::Model;
use std::sync::Arc;

/// The end of a stream that writes: AOSP's `AudioTrackClientProxy`, with a share of the control block.
///
/// Contracts see the block, and the proxy with the list of all that it did and the frames that it released. This end never pokes, so no call of it answers Corrupt. No call takes memory or waits. It may be sent to another thread (`Send`).
#[derive(Drop)]
pub struct StreamClient {
    pub(crate) stream: Arc<Common<ParkedClient>, Global>,
    pub(crate) client: Client,
}

impl Model for StreamClient {
    ghost use Rattle.std.specs.Arc.{arc_value};
    ghost use Rattle.af_ends.specs.Streams.{StreamClientState, IsStreamClient};

    ghost Value = { StreamClientState };

    ghost view = { λ e. record { block = arc_value e.stream; client = e.client } };

    ghost invariant = { λ e. IsStreamClient (arc_value e.stream) e.client };
}

impl StreamClient {
    /// Releases the first of these frames, as many as there is room for before the last cell, and answers how many: 0 if the block is full, or there are none to write. The rest can be written by a second call, after the wrap.
    ///
    /// Limit exactly if there are frames to write, and 2^62 were released before. Dead exactly if INVALID is seen: that look is added to the list, and nothing else changes. No other refusal comes.
    pub fn write(&mut self, frames: &[Frame]) -> Result<u32, EndError>
        ensures block { self.new.block ≡ self.old.block }
        ensures answer { Writes self.old.client (length frames.now) result self.new.client }
        ensures releases { Releases self.old.client (map packed_word (take (count_in result) frames.now)) self.new.client }
        ensures few { count_in result ≤ length frames.now }
        ensures kept { (self.new.client.flushes ≡ self.old.client.flushes) × (self.new.client.released ≡ self.old.client.released + count_in result) }
    {
        client_write(self.stream.what(), &mut self.client, frames)
    }

    /// Asks the server to discard the frames released so far, and no later ones, and answers how many flushes were asked for.
    ///
    /// Limit exactly if as many flushes were asked for before as flush words can distinguish: 2^32 divided by four times the cells, less one. No other refusal comes.
    pub fn flush(&mut self) -> Result<u32, EndError>
        ensures block { self.new.block ≡ self.old.block }
        ensures flushes { Flushes self.old.block self.old.client result self.new.client }
    {
        client_flush(self.stream.what(), &mut self.client)
    }

    /// Sets the gains of the left and the right side, each in 4.12, from 0 to unity (0x1000).
    ///
    /// Argument exactly if a gain is above unity. No other refusal comes.
    pub fn set_gains(&mut self, left: u16, right: u16) -> Result<(), EndError>
        ensures block { self.new.block ≡ self.old.block }
        ensures sets { SetsGains self.old.client left right result self.new.client }
    {
        client_set_gains(self.stream.what(), &mut self.client, left, right)
    }

    /// The status word that the server stored last, 0 if it stored none.
    pub fn status(&mut self) -> u32
        ensures block { self.new.block ≡ self.old.block }
        ensures saw { self.new.client.pass.part ≡ client_did self.old.client.pass.part (client_event.SawStatus result) }
        ensures kept { self.new.client ≡ (record self.old.client { pass = self.new.client.pass }) }
    {
        client_status(self.stream.what(), &mut self.client)
    }

    /// Clears DISABLED (0x08), and answers the flags before: UNDERRUN (0x01) if frames were missing, INVALID (0x04) if the stream is dead, DISABLED if the server has disabled it.
    pub fn clear_disabled(&mut self) -> u32
        ensures block { self.new.block ≡ self.old.block }
        ensures cleared { self.new.client.pass.part ≡ client_did self.old.client.pass.part (client_event.ClearFlags result) }
        ensures kept { self.new.client ≡ (record self.old.client { pass = self.new.client.pass }) }
    {
        client_clear_disabled(self.stream.what(), &mut self.client)
    }

    /// How many frames were released.
    pub fn released(&self) -> u64
        ensures value { result ≡ self.now.client.released }
        ensures frames { result ≡ length self.now.client.pass.part.frames }
    {
        self.client.released()
    }

    /// How many flushes were asked for.
    pub fn flushes(&self) -> u32
        ensures value { result ≡ self.now.client.flushes }
        ensures list { result ≡ flushes_of self.now.client.pass.part.events }
    {
        self.client.flushes()
    }

    /// How many frames the block may hold.
    pub fn frames(&self) -> u32
        ensures { result ≡ self.now.block.shape.frames }
    {
        self.stream.what().frames()
    }
}
