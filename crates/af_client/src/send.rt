//! Sending commands.
ghost use Rattle.std.specs.Prelude.{◌≡◌, ◌+◌, ◌-◌, ◌^◌, ◌<◌, ◌≤◌, true, [], ◌∷◌};
ghost use Rattle.af_model.specs.Point.{wrapped};
ghost use Rattle.af_model.specs.History.{is_lawful};
ghost use Rattle.af_cblk.specs.Parts.{released, room as room_of};
ghost use Rattle.af_cblk.specs.Sides.{client_made};
ghost use Rattle.af_client.specs.Order.{IsClientOf};
ghost use Rattle.af_client.specs.Calls.{Does, Releases, PutOn};
ghost use Rattle.af_client.specs.Sends.{sent_call, sent_by, sent_count, shut_by_send, send_steps, IsCorruptSend};

use crate::client::Client;
use crate::put::Opened;
use af_base::Steps;
use af_cblk::Block;
use std::sync::ledger::Ledger;

/// What a send answers.
#[derive(Clone, Copy, Debug, PartialEq, Eq)]
pub enum Sent {
    /// The code and the argument were released as two frames: the front seen.
    Sent { front: u32 },
    /// There is no room for two frames by the front seen.
    Full { front: u32 },
    /// INVALID was seen in the flags: the track is dead.
    Dead { flags: u32 },
    /// Rear does not lie between front and front plus the block's frames. The proxy is shut, by this call or an earlier one.
    Corrupt { front: u32, rear: u32 },
}

impl Client {
    // Puts two words as the next two frames, and releases them in one step.
    fn put_two<L: Ledger>(&mut self, block: &Block, code: u32, argument: u32, steps: &mut Steps<L>)
        requires made { client_made self.old.pass ≡ block.now }
        requires rear { self.old.rear ≡ wrapped (released self.old.pass.part) }
        requires room { 2 ≤ room_of self.old.pass.part }
        requires released { self.old.released < 2 ^ 62 }
        ensures made { client_made self.new.pass ≡ block.now }
        ensures put { PutOn self.old.pass.part 2 (code ∷ argument ∷ []) self.new.pass.part }
        ensures rear { self.new.rear ≡ wrapped (released self.new.pass.part) }
        ensures released { self.new.released ≡ self.old.released + 2 }
        ensures kept { (self.new.flushes ≡ self.old.flushes) × (self.new.shut ≡ self.old.shut) }
        ensures steps { steps.new ≡ steps.old + 3 }
    {
        block.store_cell(&mut self.pass, self.rear, code, steps);
        block.store_cell(&mut self.pass, self.rear.wrapping_add(1), argument, steps);
        block.store_rear(&mut self.pass, 2, steps);
        self.rear = self.rear.wrapping_add(2);
        self.released += 2;
    }

    /// Sends a command on a command block: its code and its argument, as two frames that are released in one step.
    ///
    /// A proxy that is shut answers Corrupt with the two words that shut it, and makes no step. Otherwise it loads the flags and then front, each in one step. Dead exactly if INVALID (0x04) is set. Corrupt exactly if the front seen doesn't fit the block, which a client that has not poked never sees. Full exactly if fewer than two frames have room.
    pub fn send<L: Ledger>(
        &mut self,
        block: &Block,
        code: u32,
        argument: u32,
        steps: &mut Steps<L>,
    ) -> Sent
        requires ready { IsClientOf block.now self.old }
        requires command { (block.now.shape.frames ≡ 128) × (block.now.shape.base ≡ 0) }
        requires released { self.old.released < 2 ^ 62 }
        ensures ready { IsClientOf block.now self.new }
        ensures does { Does self.old 2 (sent_call code argument result) self.new }
        ensures releases { Releases self.old (sent_by code argument result) self.new }
        ensures kept { (self.new.flushes ≡ self.old.flushes) × (self.new.released ≡ self.old.released + sent_count result) × (self.new.shut ≡ shut_by_send result) }
        ensures lawful { is_lawful self.old.pass.part.events ≡ true → IsCorruptSend result → ⊥ }
        ensures steps { steps.new ≡ steps.old + send_steps self.old result }
    {
        match self.open(block, steps) {
            Opened::Dead { flags } => Sent::Dead { flags },
            Opened::Corrupt { front, rear } => Sent::Corrupt { front, rear },
            Opened::Open { front, room } => {
                if room < 2 {
                    return Sent::Full { front };
                }
                self.put_two(block, code, argument, steps);
                Sent::Sent { front }
            }
        }
    }
}
