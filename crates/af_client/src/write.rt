//! Writing frames.
ghost use Rattle.std.specs.Prelude.{◌≡◌, ◌+◌, ◌^◌, ◌<◌, ◌≤◌, true, map, take, length};
ghost use Rattle.af_base.specs.Sample.{packed_word};
ghost use Rattle.af_model.specs.History.{is_lawful};
ghost use Rattle.af_client.specs.Order.{IsClientOf};
ghost use Rattle.af_client.specs.Calls.{Does, Releases, wrote_call, put_by, shut_by, Leaves, write_steps, IsCorrupt};

use crate::client::Client;
use crate::put::Opened;
use af_base::{Frame, Steps};
use af_cblk::Block;
use std::sync::ledger::Ledger;

/// What a write answers.
#[derive(Clone, Copy, Debug, PartialEq, Eq)]
pub enum Wrote {
    /// The first `count` frames were released: the front seen, and the room that is left.
    Put { front: u32, count: u32, rest: u32 },
    /// The block is full by the front seen.
    Full { front: u32 },
    /// INVALID was seen in the flags: the track is dead.
    Dead { flags: u32 },
    /// Rear does not lie between front and front plus the block's frames. The proxy is shut, by this call or an earlier one.
    Corrupt { front: u32, rear: u32 },
}

impl Client {
    /// Releases the first of these frames, as many as there is room for before the last cell.
    ///
    /// A proxy that is shut answers Corrupt with the two words that shut it, and makes no step. Otherwise it loads the flags and then front, each in one step. Dead exactly if INVALID (0x04) is set. Corrupt exactly if the front seen doesn't fit the block, which a client that has not poked never sees. Full exactly if all frames of the block are filled. Else Put: the frames go into their cells, and then rear is raised.
    pub fn write<L: Ledger>(
        &mut self,
        block: &Block,
        frames: &[Frame],
        steps: &mut Steps<L>,
    ) -> Wrote
        requires ready { IsClientOf block.now self.old }
        requires some { 1 ≤ length frames.now }
        requires released { self.old.released < 2 ^ 62 }
        ensures ready { IsClientOf block.now self.new }
        ensures does { Does self.old (length frames.now) (wrote_call result) self.new }
        ensures releases { Releases self.old (map packed_word (take (put_by result) frames.now)) self.new }
        ensures rest { Leaves self.old result }
        ensures kept { (self.new.flushes ≡ self.old.flushes) × (self.new.released ≡ self.old.released + put_by result) × (self.new.shut ≡ shut_by result) }
        ensures lawful { is_lawful self.old.pass.part.events ≡ true → IsCorrupt result → ⊥ }
        ensures steps { steps.new ≡ steps.old + write_steps self.old result }
    {
        match self.open(block, steps) {
            Opened::Dead { flags } => Wrote::Dead { flags },
            Opened::Corrupt { front, rear } => Wrote::Corrupt { front, rear },
            Opened::Open { front, room } => {
                if room == 0 {
                    return Wrote::Full { front };
                }
                let count = self.put(block, frames, room, steps);
                Wrote::Put {
                    front,
                    count,
                    rest: room - count,
                }
            }
        }
    }
}
