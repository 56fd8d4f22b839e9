//! Both ends on two threads, and on one thread beside a plain model.
ghost use Rattle.std.specs.Prelude.{◌≡◌, ◌+◌, ◌*◌, ◌^◌, ◌<◌, ◌≤◌, length};
ghost use Rattle.af_record.specs.Ends.{capture_made, listener_made};

use af_base::{Frame, Memory, Steps};
use af_cblk::Block;
use af_record::{Capture, Listener, make};
use std::alloc::Global;
use std::marker::Brand;
use std::mem::drop;
use std::sync::ledger::{Blank, Ledger};
use std::test::*;
use std::thread::{Threads, join, yield_now};

// The supplies of a test, each of a thousand frames, and the most reads.
const SUPPLIES: u32 = 1_000;

const READS: u32 = 100_000;

// Frames with these numbers as their words.
fn number(frames: &mut [Frame], first: u32)
    requires { length frames.old ≤ 1024 }
{
    for i in 0..frames.len() {
        frames[i] = Frame::unpack(first.wrapping_add(i as u32));
    }
}

// The number after the last, if the numbers of these frames rise from `low` on.
fn risen(frames: &[Frame], low: Option<u32>) -> Option<u32> {
    let mut next = low?;
    for frame in frames {
        if frame.pack() < next {
            return None;
        }
        next = frame.pack().wrapping_add(1);
    }
    Some(next)
}

fn supply_in<L: Ledger>(blank: Blank, block: &Block, mut capture: Capture) -> Capture
    requires ledger { (blank.name ≡ L.name) × (blank.parts ≡ L.parts) × (0 < blank.parts) }
    requires made { (capture_made capture ≡ block.now) × (capture.supplied ≡ 0) }
    ensures made { capture_made result ≡ block.now }
{
    let mut steps = Steps::<L>::start(blank);
    let mut frames = [Frame::unpack(0); 1_000];
    for round in 0..SUPPLIES {
        number(&mut frames, round * 1_000);
        capture.supply(block, &frames, &mut steps);
    }
    capture
}

fn supply(block: &Block, capture: Capture) -> Capture
    requires made { (capture_made capture ≡ block.now) × (capture.supplied ≡ 0) }
    ensures made { capture_made result ≡ block.now }
{
    supply_in::<Brand>(Blank::new(1), block, capture)
}

// Reads until so many reads gave nothing one after the other, as far as its calls go. It answers whether the numbers rose from `low` on, by the number after the last.
fn read_in<L: Ledger>(
    blank: Blank,
    block: &Block,
    mut listener: Listener,
    patience: u32,
    low: Option<u32>,
) -> (Listener, Option<u32>)
    requires ledger { (blank.name ≡ L.name) × (blank.parts ≡ L.parts) × (0 < blank.parts) }
    requires made { (listener_made listener ≡ block.now) × (listener.total ≤ 102400000) }
    ensures made { (listener_made result.0 ≡ block.now) × (result.0.total ≤ listener.total + 102400000) }
{
    let mut steps = Steps::<L>::start(blank);
    let mut into = [Frame::unpack(0); 1_024];
    let mut next = low;
    let mut idle: u32 = 0;
    for read in 0..READS {
        if idle >= patience {
            break;
        }
        let count = listener.read(block, &mut into, &mut steps);
        next = risen(&into[..count as usize], next);
        idle = if count == 0 {
            idle.saturating_add(1)
        } else {
            0
        };
        yield_now();
    }
    (listener, next)
}

fn read(
    block: &Block,
    listener: Listener,
    patience: u32,
    low: Option<u32>,
) -> (Listener, Option<u32>)
    requires made { (listener_made listener ≡ block.now) × (listener.total ≤ 102400000) }
    ensures made { (listener_made result.0 ≡ block.now) × (result.0.total ≤ listener.total + 102400000) }
{
    read_in::<Brand>(Blank::new(1), block, listener, patience, low)
}

// Both ends at work at once, and then what is still queued: whether the numbers read rose, and each frame was read or lost.
fn all_found<R: Threads + Sync>(rt: &R, alloc: Global) -> Result<bool, Memory> {
    let (block, capture, listener) = make(alloc, 4_096)?;
    let shared = &block;
    let (capture, (listener, next)) = join(
        rt,
        move || -> Capture
            requires { (capture_made capture ≡ shared.now) × (capture.supplied ≡ 0) }
            ensures { capture_made result ≡ shared.entry.now }
        { supply(shared, capture) },
        move || -> (Listener, Option<u32>)
            requires { (listener_made listener ≡ shared.now) × (listener.total ≡ 0) }
            ensures { (listener_made result.0 ≡ shared.entry.now) × (result.0.total ≤ 102400000) }
        { read(shared, listener, 1_000, Some(0)) },
    );
    let (listener, next) = read(shared, listener, 1, next);
    let found = listener.total().wrapping_add(capture.overrun());
    let supplied = capture.supplied();
    drop(listener);
    drop(capture);
    drop(block);
    Ok(next.is_some() && found == 1_000_000 && supplied == found)
}

#[test]
fn each_frame_is_read_in_order_or_lost(rt: HostRuntime) {
    let found = all_found(&rt, rt.alloc());
    assert!(rt; found == Ok(true));
}
