//! The calls of both proxies of a block, as the tests' tables name them.
ghost use Rattle.std.specs.Prelude.{◌≡◌, ◌≤◌, IfOk};
ghost use Rattle.af_cblk.specs.Rule.{new_client, new_server};
ghost use Rattle.af_cblk.specs.Sides.{client_made, server_made};
ghost use Rattle.af_client.specs.Order.{IsClientOf};
ghost use Rattle.af_server.specs.Order.{IsServerOf};

use af_base::{Frame, Memory, Seen, Steps};
use af_cblk::{Block, ClientPass, ServerPass};
use af_client::{Client, Sent, Wrote};
use af_server::{Look, Server};
use std::alloc::Global;
use std::sync::ledger::Ledger;

// The most frames, commands and flushes of a test.
const MOST: u64 = 10_000;

// A call on one of the two proxies.
#[derive(Clone, Copy)]
pub(crate) enum Call {
    // Writes `count` of the numbered frames, from this number on.
    Write(u16, u16),
    Flush,
    Gains(u32),
    Clear,
    Send(u32, u32),
    Status,
    Poke(u32, u32),
    Look(u32),
    // Looks, and takes what was shown.
    Take(u32),
    SeeGains,
    Tally(u32),
    SetFlags(u32),
    SetStatus(u32),
}

#[derive(Clone, Copy, PartialEq, Eq)]
pub(crate) enum Answer {
    Wrote(Wrote),
    Sent(Sent),
    Word(u32),
    Saw(Look),
    // The words of the frames taken.
    Took(Look, [u32; 3]),
    Done,
    // The call isn't one of this proxy, or not for this block.
    NotMade,
}

// A new block, whose flushes may carry their position.
pub(crate) fn new_block(
    alloc: Global,
    frames: u32,
    base: u32,
    positional: bool,
) -> Result<(Block, ClientPass, ServerPass), Memory>
    requires { (1 ≤ frames) × (frames ≤ 8192) }
    ensures made { IfOk result (λ r. (client_made r.1 ≡ r.0) × (server_made r.2 ≡ r.0)) }
    ensures new { IfOk result (λ r. (r.1.part ≡ new_client r.0.shape) × (r.2.part ≡ new_server r.0.shape)) }
{
    if positional {
        return Block::make_positional(alloc, frames, base);
    }
    Block::make(alloc, frames, base)
}

// The frame of a number.
fn numbered(number: u16) -> Frame {
    Frame::unpack(u32::from(number))
}

// Writes the frames of up to four numbers.
fn write<L: Ledger>(
    block: &Block,
    client: &mut Client,
    first: u16,
    count: u16,
    steps: &mut Steps<L>,
) -> Answer
    requires ready { IsClientOf block.now client.old }
    ensures ready { IsClientOf block.now client.new }
{
    let frames = [
        numbered(first),
        numbered(first.wrapping_add(1)),
        numbered(first.wrapping_add(2)),
        numbered(first.wrapping_add(3)),
    ];
    if count == 0 || count > 4 || client.released() > MOST {
        return Answer::NotMade;
    }
    Answer::Wrote(client.write(block, &frames[..count as usize], steps))
}

// Asks for a flush, if there were few.
fn flush<L: Ledger>(block: &Block, client: &mut Client, steps: &mut Steps<L>) -> Answer
    requires ready { IsClientOf block.now client.old }
    ensures ready { IsClientOf block.now client.new }
{
    let _wrap = block.wrap();
    if client.flushes() >= 10_000 {
        return Answer::NotMade;
    }
    Answer::Word(client.flush(block, steps))
}

// What the client's calls answer.
pub(crate) fn ask_client<L: Ledger>(
    block: &Block,
    client: &mut Client,
    call: &Call,
    steps: &mut Steps<L>,
) -> Answer
    requires ready { IsClientOf block.now client.old }
    ensures ready { IsClientOf block.now client.new }
{
    match *call {
        Call::Write(first, count) => write(block, client, first, count, steps),
        Call::Flush => flush(block, client, steps),
        Call::Gains(word) => {
            client.set_gains(block, word, steps);
            Answer::Done
        }
        Call::Clear => Answer::Word(client.clear_disabled(block, steps)),
        Call::Send(code, argument)
            if block.frames() == 128 && block.base() == 0 && client.released() < MOST => {
            Answer::Sent(client.send(block, code, argument, steps))
        }
        Call::Status => Answer::Word(client.status(block, steps)),
        Call::Poke(word, value) if word.saturating_sub(7) < block.cells() => {
            client.poke(block, word, value, steps);
            Answer::Done
        }
        _ => Answer::NotMade,
    }
}

// Looks for up to three frames, and takes them.
fn take<L: Ledger>(block: &Block, server: &mut Server, ask: u32, steps: &mut Steps<L>) -> Answer
    requires ready { IsServerOf block.now server.old }
    requires ask { (1 ≤ ask) × (ask ≤ 3) }
    ensures ready { IsServerOf block.now server.new }
{
    let mut into = [numbered(0); 3];
    let look = server.look(block, ask, steps);
    if let Seen::Frames { count } = look.seen {
        server.take(block, &mut into[..count as usize], steps);
    }
    Answer::Took(look, [into[0].pack(), into[1].pack(), into[2].pack()])
}

// What the server's calls answer.
pub(crate) fn ask_server<L: Ledger>(
    block: &Block,
    server: &mut Server,
    call: &Call,
    steps: &mut Steps<L>,
) -> Answer
    requires ready { IsServerOf block.now server.old }
    ensures ready { IsServerOf block.now server.new }
{
    match *call {
        Call::Look(ask) if ask > 0 => Answer::Saw(server.look(block, ask, steps)),
        Call::Take(ask) if ask > 0 && ask <= 3 => take(block, server, ask, steps),
        Call::SeeGains => Answer::Word(server.gains(block, steps)),
        Call::Tally(missing) if missing > 0 => {
            server.tally(block, missing, steps);
            Answer::Done
        }
        Call::SetFlags(bits) => {
            server.set_flags(block, bits, steps);
            Answer::Done
        }
        Call::SetStatus(word) => {
            server.set_status(block, word, steps);
            Answer::Done
        }
        _ => Answer::NotMade,
    }
}
