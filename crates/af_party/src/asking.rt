//! One call of a client's proxy, and what is written down of it.
ghost use Rattle.std.specs.Prelude.{◌≡◌, ◌+◌, ◌^◌, ◌<◌, ◌≤◌, true, false, [], map, take, length};
ghost use Rattle.af_base.specs.Sample.{packed_word};
ghost use Rattle.af_cblk.specs.Shape.{most_flushes};
ghost use Rattle.af_client.specs.Calls.{wrote_call};
ghost use Rattle.af_client.specs.Order.{IsClientOf};
ghost use Rattle.af_client.specs.Sends.{sent_call};
ghost use Rattle.af_runs.specs.ClientTurns.{Track, is_clear, is_flush, is_send, is_status, is_write, released_by};
ghost use Rattle.af_party.specs.Asking.{Asked, words_sent, written_by};

use af_base::{ClientCall, Frame, Steps};
use af_cblk::Block;
use af_client::{Client, Sent, Wrote};
use std::sync::ledger::Ledger;

// What is written down of a write.
fn call_of_write(wrote: Wrote) -> ClientCall
    ensures { result ≡ wrote_call wrote }
{
    match wrote {
        Wrote::Put { front, count, .. } => ClientCall::Put { front, count },
        Wrote::Full { front } => ClientCall::Full { front },
        Wrote::Dead { flags } => ClientCall::Dead { flags },
        Wrote::Corrupt { front, rear } => ClientCall::Corrupt { front, rear },
    }
}

// What is written down of a send.
fn call_of_send(code: u32, argument: u32, sent: Sent) -> ClientCall
    ensures { result ≡ sent_call code argument sent }
{
    match sent {
        Sent::Sent { front } => ClientCall::Sent {
            front,
            code,
            argument,
        },
        Sent::Full { front } => ClientCall::SendFull { front },
        Sent::Dead { flags } => ClientCall::SendDead { flags },
        Sent::Corrupt { front, rear } => ClientCall::SendCorrupt { front, rear },
    }
}

// Writes these frames, as many as there is room for.
pub(crate) fn ask_write<L: Ledger>(
    client: &mut Client,
    block: &Block,
    frames: &[Frame],
    steps: &mut Steps<L>,
) -> ClientCall
    requires ready { IsClientOf block.now client.old }
    requires some { 1 ≤ length frames.now }
    requires released { client.old.released < 2 ^ 62 }
    ensures ready { IsClientOf block.now client.new }
    ensures asked { Asked false (length frames.now) result (map packed_word (take (written_by result) frames.now)) client.old client.new }
    ensures wanted { is_write result ≡ true }
{
    let wrote = client.write(block, frames, steps);
    call_of_write(wrote)
}

// Sends a command.
pub(crate) fn ask_send<L: Ledger>(
    client: &mut Client,
    block: &Block,
    code: u32,
    argument: u32,
    steps: &mut Steps<L>,
) -> ClientCall
    requires ready { IsClientOf block.now client.old }
    requires command { (block.now.shape.frames ≡ 128) × (block.now.shape.base ≡ 0) }
    requires released { client.old.released < 2 ^ 62 }
    ensures ready { IsClientOf block.now client.new }
    ensures asked { Asked true 0 result (words_sent result) client.old client.new }
    ensures words { (t : Track) → released_by t result ≡ words_sent result }
    ensures wanted { is_send code argument result ≡ true }
{
    let sent = client.send(block, code, argument, steps);
    call_of_send(code, argument, sent)
}

// Asks for a flush.
pub(crate) fn ask_flush<L: Ledger>(
    client: &mut Client,
    block: &Block,
    steps: &mut Steps<L>,
) -> ClientCall
    requires ready { IsClientOf block.now client.old }
    requires few { client.old.flushes < most_flushes block.now.shape.wrap }
    ensures ready { IsClientOf block.now client.new }
    ensures asked { Asked false 0 result [] client.old client.new }
    ensures words { (t : Track) → released_by t result ≡ [] }
    ensures wanted { is_flush result ≡ true }
{
    let count = client.flush(block, steps);
    ClientCall::Flush { count }
}

// Sets the gains.
pub(crate) fn ask_gains<L: Ledger>(
    client: &mut Client,
    block: &Block,
    word: u32,
    steps: &mut Steps<L>,
) -> ClientCall
    requires ready { IsClientOf block.now client.old }
    ensures ready { IsClientOf block.now client.new }
    ensures asked { Asked false 0 result [] client.old client.new }
    ensures words { (t : Track) → released_by t result ≡ [] }
    ensures wanted { result ≡ ClientCall.Gain word }
{
    client.set_gains(block, word, steps);
    ClientCall::Gain { word }
}

// Clears DISABLED.
pub(crate) fn ask_clear<L: Ledger>(
    client: &mut Client,
    block: &Block,
    steps: &mut Steps<L>,
) -> ClientCall
    requires ready { IsClientOf block.now client.old }
    ensures ready { IsClientOf block.now client.new }
    ensures asked { Asked false 0 result [] client.old client.new }
    ensures words { (t : Track) → released_by t result ≡ [] }
    ensures wanted { is_clear result ≡ true }
{
    let flags = client.clear_disabled(block, steps);
    ClientCall::Cleared { flags }
}

// Reads the status word.
pub(crate) fn ask_status<L: Ledger>(
    client: &mut Client,
    block: &Block,
    steps: &mut Steps<L>,
) -> ClientCall
    requires ready { IsClientOf block.now client.old }
    ensures ready { IsClientOf block.now client.new }
    ensures asked { Asked true 0 result [] client.old client.new }
    ensures words { (t : Track) → released_by t result ≡ [] }
    ensures wanted { is_status result ≡ true }
{
    let word = client.status(block, steps);
    ClientCall::Status { word }
}

// Stores a word out of turn, on the command block or else on the stream's.
pub(crate) fn ask_poke<L: Ledger>(
    client: &mut Client,
    block: &Block,
    command: bool,
    word: u32,
    value: u32,
    steps: &mut Steps<L>,
) -> ClientCall
    requires ready { IsClientOf block.now client.old }
    requires word { word < 7 + block.now.shape.cells }
    ensures ready { IsClientOf block.now client.new }
    ensures asked { Asked command 0 result [] client.old client.new }
    ensures words { (t : Track) → released_by t result ≡ [] }
    ensures wanted { result ≡ ClientCall.Poke command word value }
{
    client.poke(block, word, value, steps);
    ClientCall::Poke {
        command,
        word,
        value,
    }
}
