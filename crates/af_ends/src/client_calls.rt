//! The calls of a client that has not poked, on its block: they are total, and an end of any kind may have the client.
ghost use Rattle.std.specs.Prelude.{◌≡◌, ◌+◌, ◌<◌, ◌≤◌, map, take, length, Ok};
ghost use Rattle.af_base.specs.declared.event.ClientEvent.TheVariants as client_event;
ghost use Rattle.af_base.specs.Sample.{packed_word};
ghost use Rattle.af_cblk.specs.Parts.{client_did};
ghost use Rattle.af_cblk.specs.Shape.{most_flushes};
ghost use Rattle.af_client.specs.Calls.{Releases};
ghost use Rattle.af_ends.specs.Streams.{IsStreamClient, told, count_in, Writes, MayWrite, Flushes, SetsGains};

use crate::error::EndError;
use af_base::{Frame, Steps};
use af_cblk::Block;
use af_client::{Client, Wrote};
use std::marker::Brand;
use std::sync::ledger::{Blank, Ledger};

/// Once a client has released so many frames, it writes no more.
const MOST_RELEASED: u64 = 0x4000_0000_0000_0000;

/// The gain of unity, in 4.12.
const UNITY: u16 = 0x1000;

// The answer of an end, by what its proxy wrote.
fn told(wrote: Wrote) -> Result<u32, EndError>
    ensures { result ≡ told wrote }
{
    match wrote {
        Wrote::Put { count, .. } => Ok(count),
        Wrote::Full { .. } => Ok(0),
        Wrote::Dead { .. } => Err(EndError::Dead),
        Wrote::Corrupt { .. } => Err(EndError::Corrupt),
    }
}

// Writes the first of these frames.
fn write_in<L: Ledger>(
    blank: Blank,
    block: &Block,
    client: &mut Client,
    frames: &[Frame],
) -> Result<u32, EndError>
    requires ledger { (blank.name ≡ L.name) × (blank.parts ≡ L.parts) × (0 < blank.parts) }
    requires ready { IsStreamClient block.now client.old }
    requires may { MayWrite client.old (length frames.now) }
    ensures ready { IsStreamClient block.now client.new }
    ensures answer { Writes client.old (length frames.now) result client.new }
    ensures releases { Releases client.old (map packed_word (take (count_in result) frames.now)) client.new }
    ensures few { count_in result ≤ length frames.now }
    ensures kept { (client.new.flushes ≡ client.old.flushes) × (client.new.released ≡ client.old.released + count_in result) }
{
    let mut steps = Steps::<L>::start(blank);
    told(client.write(block, frames, &mut steps))
}

// Asks for one flush.
fn flush_in<L: Ledger>(blank: Blank, block: &Block, client: &mut Client) -> u32
    requires ledger { (blank.name ≡ L.name) × (blank.parts ≡ L.parts) × (0 < blank.parts) }
    requires ready { IsStreamClient block.now client.old }
    requires few { client.old.flushes < most_flushes block.now.shape.wrap }
    ensures ready { IsStreamClient block.now client.new }
    ensures flushes { Flushes block.now client.old (Ok result) client.new }
{
    let mut steps = Steps::<L>::start(blank);
    client.flush(block, &mut steps)
}

// Sets the word of two gains.
fn gains_in<L: Ledger>(blank: Blank, block: &Block, client: &mut Client, word: u32)
    requires ledger { (blank.name ≡ L.name) × (blank.parts ≡ L.parts) × (0 < blank.parts) }
    requires ready { IsStreamClient block.now client.old }
    ensures ready { IsStreamClient block.now client.new }
    ensures set { client.new.pass.part ≡ client_did client.old.pass.part (client_event.SetGain word) }
    ensures kept { client.new ≡ (record client.old { pass = client.new.pass }) }
{
    let mut steps = Steps::<L>::start(blank);
    client.set_gains(block, word, &mut steps);
}

// Loads the status word.
fn status_in<L: Ledger>(blank: Blank, block: &Block, client: &mut Client) -> u32
    requires ledger { (blank.name ≡ L.name) × (blank.parts ≡ L.parts) × (0 < blank.parts) }
    requires ready { IsStreamClient block.now client.old }
    ensures ready { IsStreamClient block.now client.new }
    ensures saw { client.new.pass.part ≡ client_did client.old.pass.part (client_event.SawStatus result) }
    ensures kept { client.new ≡ (record client.old { pass = client.new.pass }) }
{
    let mut steps = Steps::<L>::start(blank);
    client.status(block, &mut steps)
}

// Clears DISABLED, and answers the flags before.
fn clear_in<L: Ledger>(blank: Blank, block: &Block, client: &mut Client) -> u32
    requires ledger { (blank.name ≡ L.name) × (blank.parts ≡ L.parts) × (0 < blank.parts) }
    requires ready { IsStreamClient block.now client.old }
    ensures ready { IsStreamClient block.now client.new }
    ensures cleared { client.new.pass.part ≡ client_did client.old.pass.part (client_event.ClearFlags result) }
    ensures kept { client.new ≡ (record client.old { pass = client.new.pass }) }
{
    let mut steps = Steps::<L>::start(blank);
    client.clear_disabled(block, &mut steps)
}

// How many flushes a client of this block may ask for in all.
fn flush_room(block: &Block) -> u32
    ensures { result ≡ most_flushes block.now.shape.wrap }
{
    let wrap = block.wrap();
    if wrap == 0 {
        return 0xffff_fffe;
    }
    (0x1_0000_0000 / u64::from(wrap) - 1) as u32
}

/// Releases the first of these frames, as many as there is room for before the last cell, and answers how many: 0 if the block is full, or there are none to write.
///
/// Limit exactly if there are frames to write, and 2^62 were released before. Dead exactly if INVALID is seen: the list tells that look, and nothing else changes. No other refusal comes.
pub fn client_write(block: &Block, client: &mut Client, frames: &[Frame]) -> Result<u32, EndError>
    requires ready { IsStreamClient block.now client.old }
    ensures ready { IsStreamClient block.now client.new }
    ensures answer { Writes client.old (length frames.now) result client.new }
    ensures releases { Releases client.old (map packed_word (take (count_in result) frames.now)) client.new }
    ensures few { count_in result ≤ length frames.now }
    ensures kept { (client.new.flushes ≡ client.old.flushes) × (client.new.released ≡ client.old.released + count_in result) }
{
    if frames.is_empty() {
        return Ok(0);
    }
    if client.released() >= MOST_RELEASED {
        return Err(EndError::Limit);
    }
    write_in::<Brand>(Blank::new(1), block, client, frames)
}

/// Asks the server to discard the frames released so far, and answers how many flushes were asked for.
///
/// Limit exactly if there were as many flushes as flush words can tell apart.
pub fn client_flush(block: &Block, client: &mut Client) -> Result<u32, EndError>
    requires ready { IsStreamClient block.now client.old }
    ensures ready { IsStreamClient block.now client.new }
    ensures flushes { Flushes block.now client.old result client.new }
{
    if client.flushes() >= flush_room(block) {
        return Err(EndError::Limit);
    }
    Ok(flush_in::<Brand>(Blank::new(1), block, client))
}

/// Sets the gains of the two sides, each in 4.12, from 0 to unity (0x1000).
///
/// Argument exactly if one is above unity.
pub fn client_set_gains(
    block: &Block,
    client: &mut Client,
    left: u16,
    right: u16,
) -> Result<(), EndError>
    requires ready { IsStreamClient block.now client.old }
    ensures ready { IsStreamClient block.now client.new }
    ensures sets { SetsGains client.old left right result client.new }
{
    if left > UNITY || right > UNITY {
        return Err(EndError::Argument);
    }
    let word = u32::from(left) + (u32::from(right) << 16);
    gains_in::<Brand>(Blank::new(1), block, client, word);
    Ok(())
}

/// The status word that the server stored last, 0 before any.
pub fn client_status(block: &Block, client: &mut Client) -> u32
    requires ready { IsStreamClient block.now client.old }
    ensures ready { IsStreamClient block.now client.new }
    ensures saw { client.new.pass.part ≡ client_did client.old.pass.part (client_event.SawStatus result) }
    ensures kept { client.new ≡ (record client.old { pass = client.new.pass }) }
{
    status_in::<Brand>(Blank::new(1), block, client)
}

/// Clears DISABLED (0x08), and answers the flags before.
pub fn client_clear_disabled(block: &Block, client: &mut Client) -> u32
    requires ready { IsStreamClient block.now client.old }
    ensures ready { IsStreamClient block.now client.new }
    ensures cleared { client.new.pass.part ≡ client_did client.old.pass.part (client_event.ClearFlags result) }
    ensures kept { client.new ≡ (record client.old { pass = client.new.pass }) }
{
    clear_in::<Brand>(Blank::new(1), block, client)
}
