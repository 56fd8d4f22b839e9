//! Writing frames as long as there is room.
ghost use Rattle.std.specs.Prelude.{◌≡◌, ◌+◌, ◌*◌, ◌^◌, ◌++◌, ◌<◌, ◌≤◌, max, map, take, length};
ghost use Rattle.af_base.specs.Sample.{packed_word};
ghost use Rattle.af_cblk.specs.Sides.{client_made};
ghost use Rattle.af_client.specs.Calls.{put_by};
ghost use Rattle.af_client.specs.Order.{IsInOrder};
ghost use Rattle.af_record.specs.Ends.{IsStopped, LooksFirst, OnlyWrites};

use af_base::{Frame, Steps};
use af_cblk::Block;
use af_client::{Client, Wrote};
use std::sync::ledger::Ledger;

// How many frames a write put.
fn count_put(wrote: Wrote) -> u32
    ensures { result ≡ put_by wrote }
{
    match wrote {
        Wrote::Put { count, .. } => count,
        _ => 0,
    }
}

// Writes the first of these frames, and answers how many: none if the block is full, or the flags have INVALID.
fn put_some<L: Ledger>(
    block: &Block,
    client: &mut Client,
    frames: &[Frame],
    steps: &mut Steps<L>,
) -> usize
    requires made { client_made client.old.pass ≡ block.now }
    requires order { IsInOrder client.old }
    requires writes { OnlyWrites client.old.pass.part }
    requires some { 1 ≤ length frames.now }
    requires released { client.old.released < 2 ^ 62 }
    ensures made { client_made client.new.pass ≡ block.now }
    ensures order { IsInOrder client.new }
    ensures writes { OnlyWrites client.new.pass.part }
    ensures few { result ≤ length frames.now }
    ensures put { client.new.pass.part.frames ≡ client.old.pass.part.frames ++ map packed_word (take result frames.now) }
    ensures released { client.new.released ≡ client.old.released + result }
    ensures stopped { (result ≡ 0 → IsStopped client.new.pass.part) × (1 ≤ result → IsStopped client.new.pass.part → ⊥) }
    ensures looked { LooksFirst client.old.pass.part.events client.new.pass.part.events }
    ensures steps { steps.new ≤ steps.old + max 2 (4 * result) }
{
    count_put(client.write(block, frames, steps)) as usize
}

// Writes these frames, until all are put or a write puts none, and answers how many were put.
pub(crate) fn put_all<L: Ledger>(
    block: &Block,
    client: &mut Client,
    frames: &[Frame],
    steps: &mut Steps<L>,
) -> usize
    requires made { client_made client.old.pass ≡ block.now }
    requires order { IsInOrder client.old }
    requires writes { OnlyWrites client.old.pass.part }
    requires some { 1 ≤ length frames.now }
    requires released { client.old.released + length frames.now ≤ 2 ^ 62 }
    ensures made { client_made client.new.pass ≡ block.now }
    ensures order { IsInOrder client.new }
    ensures writes { OnlyWrites client.new.pass.part }
    ensures few { result ≤ length frames.now }
    ensures put { client.new.pass.part.frames ≡ client.old.pass.part.frames ++ map packed_word (take result frames.now) }
    ensures released { client.new.released ≡ client.old.released + result }
    ensures stopped { (result < length frames.now → IsStopped client.new.pass.part) × (result ≡ length frames.now → IsStopped client.new.pass.part → ⊥) }
    ensures looked { LooksFirst client.old.pass.part.events client.new.pass.part.events }
    ensures steps { steps.new ≤ steps.old + 4 * length frames.now }
{
    let mut put = 0;
    while put < frames.len() {
        let count = put_some(block, client, &frames[put..], steps);
        if count == 0 {
            return put;
        }
        put += count;
    }
    put
}
