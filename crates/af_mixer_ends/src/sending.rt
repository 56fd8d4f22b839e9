//! How a command is sent.
ghost use Rattle.std.specs.Prelude.{◌≡◌, ◌^◌, ◌<◌};
ghost use Rattle.af_mixer_ends.specs.Tracks.{IsCommandClient, Sends, told_sent};

use crate::error::CommandError;
use af_base::Steps;
use af_cblk::Block;
use af_client::{Client, Sent};
use std::marker::Brand;
use std::sync::ledger::{Blank, Ledger};

// How many words of commands a client sends at most.
const MOST_WORDS: u64 = 0x4000_0000_0000_0000;

// What an end tells of a send. Corrupt never comes to a client that has not poked.
fn told(sent: Sent) -> Result<(), CommandError>
    ensures { result ≡ told_sent sent }
{
    match sent {
        Sent::Sent { .. } => Ok(()),
        Sent::Full { .. } => Err(CommandError::Full),
        Sent::Dead { .. } | Sent::Corrupt { .. } => Err(CommandError::Dead),
    }
}

// Sends a command, of which there is room for one more in the count.
fn send_in<L: Ledger>(
    blank: Blank,
    block: &Block,
    command: &mut Client,
    code: u32,
    argument: u32,
) -> Result<(), CommandError>
    requires ledger { (blank.name ≡ L.name) × (blank.parts ≡ L.parts) × (0 < blank.parts) }
    requires ready { IsCommandClient block.now command.old }
    requires few { command.old.released < 2 ^ 62 }
    ensures ready { IsCommandClient block.now command.new }
    ensures sends { Sends command.old code argument result command.new }
{
    let mut steps = Steps::<L>::start(blank);
    told(command.send(block, code, argument, &mut steps))
}

/// Sends a command with its argument. Full exactly if there is no room by the front that was seen, Dead exactly if INVALID is seen, and Limit exactly if 2^62 words were sent before.
pub(crate) fn send(
    block: &Block,
    command: &mut Client,
    code: u32,
    argument: u32,
) -> Result<(), CommandError>
    requires ready { IsCommandClient block.now command.old }
    ensures ready { IsCommandClient block.now command.new }
    ensures sends { Sends command.old code argument result command.new }
{
    if command.released() >= MOST_WORDS {
        return Err(CommandError::Limit);
    }
    send_in::<Brand>(Blank::new(1), block, command, code, argument)
}
