//! A mixer on one thread, and a client that writes on another.
ghost use Rattle.std.specs.Prelude.{◌≡◌, ◌<◌, ◌≤◌, false, length};
ghost use Rattle.af_cblk.specs.Sides.{client_made};
ghost use Rattle.af_client.specs.Order.{IsInOrder as IsClientInOrder};
ghost use Rattle.af_link.specs.Names.{IsStreamOf};
ghost use Rattle.af_fast.specs.Fits.{NamesBlocks};
ghost use Rattle.af_fast.specs.Mixer.{IsInOrder, IsLinked};

use crate::table_tests::{Size, line};
use crate::tests::{BEFORE, Ends, Pushing, SILENCE, attach, begin, push_command};
use af_base::{Command, Cycle, Frame, Memory, Steps};
use af_cblk::Block;
use af_client::{Client, Wrote};
use af_fast::FastMixer;
use af_link::Links;
use af_server::Server;
use std::alloc::Global;
use std::marker::Brand;
use std::mem::drop;
use std::sync::ledger::{Blank, Ledger};
use std::test::*;
use std::thread::{Threads, join, yield_now};

const CYCLES: usize = 20_000;

const FRAMES: usize = 16;

// The block of the only track.
const SIZE: Size = Size {
    frames: 48,
    base: 0,
};

// How many frames are written.
const TOTAL: u32 = 5_000;

// How many calls the client makes at most.
const MOST: u32 = 1_000_000;

// The frames of the numbers up to the total, each with its number as its word.
fn numbered(alloc: Global) -> Result<Vec<Frame>, Memory> {
    let mut frames = Vec::new(alloc);
    for number in 0..TOTAL {
        frames.push(Frame::unpack(number))?;
    }
    Ok(frames)
}

// Whether a cycle wrote the frames from one place to another, and then silence.
fn goes_on(out: &[Frame; FRAMES], frames: &[Frame], from: usize, to: usize) -> bool {
    let to = to.min(frames.len());
    let next = &frames[from.min(to)..to];
    let mut right = next.len() <= FRAMES;
    for i in 0..FRAMES {
        let wanted = if i < next.len() { next[i] } else { SILENCE };
        right = right && out[i] == wanted;
    }
    right
}

// Mixes until all frames came or the log is full. It answers whether each cycle's frames went on from those of the cycles before.
fn mix_in<L: Ledger>(
    blank: Blank,
    links: &Links<'_>,
    mixer: &mut FastMixer,
    frames: &[Frame],
) -> bool
    requires ledger { (blank.name ≡ L.name) × (blank.parts ≡ L.parts) × (0 < blank.parts) }
    requires linked { IsLinked links.now mixer.old }
    requires order { IsInOrder mixer.old }
    requires turn { (mixer.old.adopted ≡ false) × (mixer.old.frames ≡ 16) }
{
    let mut steps = Steps::<L>::start(blank);
    let mut out = [BEFORE; FRAMES];
    let mut right = true;
    for _ in 0..CYCLES {
        let from = mixer.log().frames().len();
        let cycle = mixer.cycle(links, &mut out, &mut steps);
        let to = mixer.log().frames().len();
        right = right && cycle == Cycle::Mixed && goes_on(&out, frames, from, to);
        if to >= frames.len() {
            break;
        }
        if to == from {
            yield_now();
        }
    }
    right
}

fn mix_all(links: &Links<'_>, mut mixer: FastMixer, frames: &[Frame]) -> bool
    requires linked { IsLinked links.now mixer }
    requires order { IsInOrder mixer }
    requires turn { (mixer.adopted ≡ false) × (mixer.frames ≡ 16) }
{
    let right = mix_in::<Brand>(Blank::new(1), links, &mut mixer, frames);
    drop(mixer);
    right
}

// Writes the frames in order, as far as its calls go. It answers whether no call found the block dead or corrupt.
fn write_in<L: Ledger>(blank: Blank, block: &Block, client: &mut Client, frames: &[Frame]) -> bool
    requires ledger { (blank.name ≡ L.name) × (blank.parts ≡ L.parts) × (0 < blank.parts) }
    requires made { client_made client.old.pass ≡ block.now }
    requires order { IsClientInOrder client.old }
{
    let mut steps = Steps::<L>::start(blank);
    let mut rest = frames;
    for _ in 0..MOST {
        if rest.is_empty() || client.released() > 1 << 60 {
            return true;
        }
        match client.write(block, rest, &mut steps) {
            Wrote::Put { count, .. } => rest = &rest[count as usize..],
            Wrote::Full { .. } => yield_now(),
            _ => return false,
        }
    }
    true
}

fn write_all(block: &Block, mut client: Client, frames: &[Frame]) -> bool
    requires made { client_made client.pass ≡ block.now }
    requires order { IsClientInOrder client }
{
    write_in::<Brand>(Blank::new(1), block, &mut client, frames)
}

// Attaches the proxy of the only track, and pushes the command to mix.
fn mix_only<L: Ledger>(
    mutator: &mut Pushing,
    links: &Links<'_>,
    server: Server,
    steps: &mut Steps<L>,
)
    requires mutator { (mutator.old.editing ≡ false) × (mutator.old.past.number ≡ 0) }
    requires queue { mutator.old.past.queue ≡ links.now.queue.now }
    requires names { NamesBlocks mutator.old.past.key links.now.streams.now }
    requires stream { IsStreamOf links.now.streams.now 0 server }
{
    attach(mutator, links, 1, false, 0x1000, 0, server);
    push_command(mutator, links, Command::MixWrite, steps);
}

// The mixer on one thread, and the client on another. What each of them answers.
fn play_on_two<R: Threads + Sync>(
    rt: &R,
    links: &Links<'_>,
    ends: Ends,
    block: &Block,
    client: Client,
    frames: &[Frame],
) -> (bool, bool)
    requires mixer { IsLinked links.now ends.mixer × IsInOrder ends.mixer × (ends.mixer.adopted ≡ false) × (ends.mixer.frames ≡ 16) }
    requires client { (client_made client.pass ≡ block.now) × IsClientInOrder client }
{
    let Ends {
        mutator,
        mixer,
        reader,
        pipe,
    } = ends;
    drop(mutator);
    drop(reader);
    drop(pipe);
    join(
        rt,
        move || -> bool
            requires { IsLinked links.now mixer × IsInOrder mixer × (mixer.adopted ≡ false) × (mixer.frames ≡ 16) }
        { mix_all(links, mixer, frames) },
        move || -> bool
            requires { (client_made client.pass ≡ block.now) × IsClientInOrder client }
        { write_all(block, client, frames) },
    )
}

// Both over a block of 48 frames.
fn play<R: Threads + Sync, L: Ledger>(
    rt: &R,
    blank: Blank,
    alloc: Global,
    frames: &[Frame],
) -> Result<(bool, bool), Memory>
    requires ledger { (blank.name ≡ L.name) × (blank.parts ≡ L.parts) × (0 < blank.parts) }
{
    let mut steps = Steps::<L>::start(blank);
    let made = line(alloc, SIZE)?;
    let streams = [made.0];
    let (shared, mut ends) = begin(alloc, &streams, CYCLES, FRAMES)?;
    let links = shared.links(&streams);
    mix_only(&mut ends.mutator, &links, made.2, &mut steps);
    let played = play_on_two(rt, &links, ends, &streams[0], made.1, frames);
    drop(shared);
    Ok(played)
}

fn plays<R: Threads + Sync>(rt: &R, alloc: Global) -> Result<(bool, bool), Memory> {
    let frames = numbered(alloc)?;
    play::<R, Brand>(rt, Blank::new(1), alloc, &frames)
}

#[test]
fn frames_go_on_from_cycle_to_cycle(rt: HostRuntime) {
    let found = plays(&rt, rt.alloc());
    assert!(rt; found == Ok((true, true)));
}
