//! Each word call of a block once, by one thread.
ghost use Rattle.std.specs.Prelude.{◌≡◌, ◌<◌, ◌+◌, true, false, []};
ghost use Rattle.af_cblk.specs.Rule.{new_client, new_server};
ghost use Rattle.af_cblk.specs.Sides.{client_made, server_made};

use af_base::{Memory, Steps};
use af_cblk::{Block, ClientPass, ServerPass};
use std::alloc::Global;
use std::marker::Brand;
use std::mem::drop;
use std::sync::ledger::{Blank, Ledger};
use std::test::*;

// Writes one frame into a new block, if the block is seen to be empty.
fn write_one<L: Ledger>(
    block: &Block,
    client: &mut ClientPass,
    word: u32,
    steps: &mut Steps<L>,
) -> bool
    requires made { client_made client.old ≡ block.now }
    requires new { client.old.part.frames ≡ [] }
    ensures made { client_made client.new ≡ block.now }
{
    let position = block.base();
    let frames = block.frames();
    let front = block.load_front(client, steps);
    if front != position || frames == 0 {
        return false;
    }
    block.store_cell(client, position, word, steps);
    block.store_rear(client, 1, steps);
    true
}

// Takes one frame of a block that isn't positional, if there is one and no flush was noticed.
fn take_one<L: Ledger>(block: &Block, server: &mut ServerPass, steps: &mut Steps<L>) -> Option<u32>
    requires made { server_made server.old ≡ block.now }
    requires flat { server.old.part.shape.wrap ≡ 0 }
    requires noticed { server.old.part.noticed ≡ false }
    ensures made { server_made server.new ≡ block.now }
    ensures hand { server.new.has_hand ≡ server.old.has_hand }
{
    let rear = block.load_rear(server, steps);
    let front = block.load_front(server, steps);
    if rear.wrapping_sub(front) != 1 {
        return None;
    }
    let word = block.load_cell(server, front, steps);
    block.store_front(server, rear, steps);
    Some(word)
}

// The sizes of a new block, a flush, a frame that is written and taken, and the front.
fn first_in<L: Ledger>(
    block: &Block,
    client: &mut ClientPass,
    server: &mut ServerPass,
    steps: &mut Steps<L>,
) -> [u32; 6]
    requires client { (client_made client.old ≡ block.now) × (client.old.part ≡ new_client block.now.shape) }
    requires server { (server_made server.old ≡ block.now) × (server.old.part ≡ new_server block.now.shape) }
    requires flat { block.now.shape.wrap ≡ 0 }
    ensures client { client_made client.new ≡ block.now }
    ensures server { server_made server.new ≡ block.now }
    ensures hand { server.new.has_hand ≡ server.old.has_hand }
{
    let cells = block.cells();
    let count = block.add_flush(client, steps);
    let wrote = write_one(block, client, 0x0002_0001, steps);
    let taken = take_one(block, server, steps);
    let front = block.load_front(client, steps);
    [
        block.frames(),
        cells,
        count,
        u32::from(wrote),
        taken.unwrap_or(0),
        front,
    ]
}

// What the words of one side are to the other: the flags before and after their clear, the gains and the status.
fn words_in<L: Ledger>(
    block: &Block,
    client: &mut ClientPass,
    server: &mut ServerPass,
    steps: &mut Steps<L>,
) -> [u32; 4]
    requires client { client_made client.old ≡ block.now }
    requires server { server_made server.old ≡ block.now }
    ensures client { client_made client.new ≡ block.now }
    ensures server { server_made server.new ≡ block.now }
    ensures hand { server.new.has_hand ≡ server.old.has_hand }
{
    block.set_flags(server, 0x0d, steps);
    let before = block.clear_flags(client, 8, steps);
    let after = block.load_flags(client, steps);
    block.store_volume(client, 0x0800_0400, steps);
    let gains = block.load_volume(server, steps);
    block.store_status(server, 514, steps);
    let status = block.load_status(client, steps);
    block.add_underrun(server, 4, steps);
    [before, after, gains, status]
}

// All meetings, and what comes then: the flags once the hand has set DISABLED, and the flush count before and after a poke.
fn meetings_in<L: Ledger>(
    block: &Block,
    client: &mut ClientPass,
    server: &mut ServerPass,
    steps: &mut Steps<L>,
) -> [u32; 3]
    requires client { client_made client.old ≡ block.now }
    requires server { server_made server.old ≡ block.now }
    requires hand { server.old.has_hand ≡ true }
{
    block.meet(client, server, steps);
    let mut hand = block.hand(server, steps);
    block.set_disabled(&mut hand, steps);
    block.meet_flag(client, &mut hand, steps);
    block.meet_all(client, server, &mut hand, steps);
    let disabled = block.load_flags(client, steps);
    let noticed = block.load_flush(server, steps);
    block.poke(client, 2, 7, steps);
    [disabled, noticed, block.load_flush(server, steps)]
}

// What the calls answer, one after the other.
fn answers_in<L: Ledger>(
    blank: Blank,
    alloc: Global,
) -> Result<([u32; 6], [u32; 4], [u32; 3]), Memory>
    requires { (blank.name ≡ L.name) × (blank.parts ≡ L.parts) × (0 < blank.parts) }
{
    let mut steps = Steps::<L>::start(blank);
    let (block, mut client, mut server) = Block::make(alloc, 3, 0xffff_ffff)?;
    let first = first_in(&block, &mut client, &mut server, &mut steps);
    let words = words_in(&block, &mut client, &mut server, &mut steps);
    let met = meetings_in(&block, &mut client, &mut server, &mut steps);
    drop(server);
    drop(client);
    drop(block);
    Ok((first, words, met))
}

#[test]
fn each_call_answers(rt: HostRuntime) {
    let answers = answers_in::<Brand>(Blank::new(1), rt.alloc());
    let first = [3, 4, 1, 1, 0x0002_0001, 0];
    let words = [0x0d, 0x05, 0x0800_0400, 514];
    assert!(rt; answers == Ok((first, words, [0x0d, 1, 7])));
}
