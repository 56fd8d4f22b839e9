//! Both ends of a recording in one hand.
ghost use Rattle.std.specs.Prelude.{◌≡◌, ◌+◌, ◌-◌, ◌^◌, ◌++◌, ◌<◌, ◌≤◌, IfOk, [], min, map, take, drop, length};
ghost use Rattle.af_base.specs.Sample.{packed_word};
ghost use Rattle.af_record.specs.Ends.{capture_made, listener_made};
ghost use Rattle.af_record.specs.InStep.{IsInStep, queued_in};

use crate::capture::Supplied;
use crate::ends::{Capture, Listener, make, meet_record};
use af_base::{Frame, Memory, Steps};
use af_cblk::Block;
use std::alloc::Global;
use std::marker::{Brand, Model};
use std::sync::ledger::{Blank, Ledger};

/// A recording whose two ends are in one hand. They meet after each call, so a supply finds all the room that there is, and a read all the frames that are queued.
///
/// Contracts see for how many frames there is room in all, the words of the frames that are queued and of those that were read, and how many were supplied so far.
#[derive(Drop)]
pub struct InHand {
    block: Block,
    capture: Capture,
    listener: Listener,
}

impl Model for InHand {
    ghost use Rattle.af_record.specs.InStep.{HandState, IsInStep, queued_in};

    ghost Value = { HandState };

    ghost view = { λ h. record { size = h.block.shape.frames; queued = queued_in h.capture h.listener; read = h.listener.pass.part.frames; supplied = h.capture.supplied } };

    ghost invariant = { λ h. IsInStep h.block h.capture h.listener };
}

/// A first meeting of two ends that have done nothing.
fn meet_first<L: Ledger>(
    blank: Blank,
    block: &Block,
    capture: &mut Capture,
    listener: &mut Listener,
)
    requires ledger { (blank.name ≡ L.name) × (blank.parts ≡ L.parts) × (0 < blank.parts) }
    requires made { (capture_made capture.old ≡ block.now) × (listener_made listener.old ≡ block.now) }
    requires small { block.now.shape.frames ≤ 8192 }
    requires total { listener.old.total ≡ length listener.old.pass.part.frames }
    ensures step { IsInStep block.now capture.new listener.new }
    ensures frames { (capture.new.pass.part.frames ≡ capture.old.pass.part.frames) × (listener.new.pass.part.frames ≡ listener.old.pass.part.frames) }
    ensures supplied { capture.new.supplied ≡ capture.old.supplied }
{
    let mut steps = Steps::<L>::start(blank);
    meet_record(block, capture, listener, &mut steps);
}

/// A supply, and the meeting behind it.
fn supply_met<L: Ledger>(
    blank: Blank,
    block: &Block,
    capture: &mut Capture,
    listener: &mut Listener,
    frames: &[Frame],
) -> Supplied
    requires ledger { (blank.name ≡ L.name) × (blank.parts ≡ L.parts) × (0 < blank.parts) }
    requires step { IsInStep block.now capture.old listener.old }
    requires frames { (1 ≤ length frames.now) × (length frames.now ≤ 1024) }
    requires few { capture.old.supplied + length frames.now ≤ 2 ^ 62 }
    ensures step { IsInStep block.now capture.new listener.new }
    ensures sum { result.put + result.lost ≡ length frames.now }
    ensures put { result.put ≡ min (length frames.now) (block.now.shape.frames - length (queued_in capture.old listener.old)) }
    ensures queued { queued_in capture.new listener.new ≡ queued_in capture.old listener.old ++ map packed_word (take result.put frames.now) }
    ensures supplied { capture.new.supplied ≡ capture.old.supplied + length frames.now }
    ensures read { listener.new.pass.part.frames ≡ listener.old.pass.part.frames }
{
    let mut steps = Steps::<L>::start(blank);
    let supplied = capture.supply(block, frames, &mut steps);
    meet_record(block, capture, listener, &mut steps);
    supplied
}

/// A read, and the meeting behind it.
fn read_met<L: Ledger>(
    blank: Blank,
    block: &Block,
    capture: &mut Capture,
    listener: &mut Listener,
    into: &mut [Frame],
) -> u32
    requires ledger { (blank.name ≡ L.name) × (blank.parts ≡ L.parts) × (0 < blank.parts) }
    requires step { IsInStep block.now capture.old listener.old }
    requires places { (1 ≤ length into.old) × (length into.old ≤ 1024) }
    requires few { length listener.old.pass.part.frames < 2 ^ 62 }
    ensures step { IsInStep block.now capture.new listener.new }
    ensures count { result ≡ min (length into.old) (length (queued_in capture.old listener.old)) }
    ensures frames { map packed_word (take result into.new) ≡ take result (queued_in capture.old listener.old) }
    ensures rest { drop result into.new ≡ drop result into.old }
    ensures queued { queued_in capture.new listener.new ≡ drop result (queued_in capture.old listener.old) }
    ensures supplied { capture.new.supplied ≡ capture.old.supplied }
    ensures read { listener.new.pass.part.frames ≡ listener.old.pass.part.frames ++ take result (queued_in capture.old listener.old) }
{
    let mut steps = Steps::<L>::start(blank);
    let count = listener.read(block, into, &mut steps);
    meet_record(block, capture, listener, &mut steps);
    count
}

impl InHand {
    /// An empty recording for `frames` frames, from 1 to 8192. Memory is its only refusal, and no other call takes memory.
    pub fn make(alloc: Global, frames: u32) -> Result<InHand, Memory>
        requires { (1 ≤ frames) × (frames ≤ 8192) }
        ensures { IfOk result (λ h. h ≡ (record { size = frames; queued = []; read = []; supplied = 0 })) }
    {
        let (block, mut capture, mut listener) = make(alloc, frames)?;
        meet_first::<Brand>(Blank::new(1), &block, &mut capture, &mut listener);
        Ok(InHand {
            block,
            capture,
            listener,
        })
    }

    /// Supplies these frames, 1 to 1024. As many of the first as there is room for are put, and the rest is lost.
    pub fn supply(&mut self, frames: &[Frame]) -> Supplied
        requires frames { (1 ≤ length frames.now) × (length frames.now ≤ 1024) }
        requires few { self.old.supplied + length frames.now ≤ 2 ^ 62 }
        ensures sum { result.put + result.lost ≡ length frames.now }
        ensures put { result.put ≡ min (length frames.now) (self.old.size - length self.old.queued) }
        ensures state { self.new ≡ (record self.old { queued = self.old.queued ++ map packed_word (take result.put frames.now); supplied = self.old.supplied + length frames.now }) }
    {
        supply_met::<Brand>(
            Blank::new(1),
            &self.block,
            &mut self.capture,
            &mut self.listener,
            frames,
        )
    }

    /// Reads as many of the queued frames as `into` has places, 1 to 1024, to its front. The rest of it stays.
    pub fn read(&mut self, into: &mut [Frame]) -> u32
        requires places { (1 ≤ length into.old) × (length into.old ≤ 1024) }
        requires few { length self.old.read < 2 ^ 62 }
        ensures count { result ≡ min (length into.old) (length self.old.queued) }
        ensures frames { map packed_word (take result into.new) ≡ take result self.old.queued }
        ensures rest { drop result into.new ≡ drop result into.old }
        ensures state { self.new ≡ (record self.old { queued = drop result self.old.queued; read = self.old.read ++ take result self.old.queued }) }
    {
        read_met::<Brand>(
            Blank::new(1),
            &self.block,
            &mut self.capture,
            &mut self.listener,
            into,
        )
    }
}
