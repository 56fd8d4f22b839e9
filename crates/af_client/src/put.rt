//! The parts of a write: a look at flags and front, and frames into their cells.
ghost use Rattle.std.specs.Prelude.{◌≡◌, ◌+◌, ◌-◌, ◌%◌, ◌^◌, ◌<◌, ◌≤◌, min, map, take, length};
ghost use Rattle.af_base.specs.Sample.{packed_word};
ghost use Rattle.af_model.specs.Point.{wrapped};
ghost use Rattle.af_cblk.specs.Parts.{released, room as room_of};
ghost use Rattle.af_cblk.specs.Sides.{client_made};
ghost use Rattle.af_client.specs.Order.{IsClientOf};
ghost use Rattle.af_client.specs.Calls.{Opens, open_steps, Stored, SameBut, PutOn};

use crate::client::Client;
use af_base::{Frame, INVALID, Steps};
use af_cblk::{Block, ClientPass};
use std::sync::ledger::Ledger;

/// What a look at flags and front shows: room for so many frames, a dead track, or words that don't fit the block.
pub(crate) enum Opened {
    Open { front: u32, room: u32 },
    Dead { flags: u32 },
    Corrupt { front: u32, rear: u32 },
}

/// Stores these frames in the cells of the positions from `rear` on, which is the pass's own position, below 2^32 of them, and no more than there is room for by the front last seen. It releases nothing. So many steps.
pub fn store_frames<L: Ledger>(
    block: &Block,
    pass: &mut ClientPass,
    rear: u32,
    frames: &[Frame],
    steps: &mut Steps<L>,
)
    requires made { client_made pass.old ≡ block.now }
    requires rear { rear ≡ wrapped (released pass.old.part) }
    requires room { length frames.now ≤ room_of pass.old.part }
    requires few { length frames.now < 2 ^ 32 }
    ensures made { client_made pass.new ≡ block.now }
    ensures same { SameBut pass.old.part pass.new.part }
    ensures stored { Stored pass.new.part (map packed_word frames.now) (length frames.now) }
    ensures steps { steps.new ≡ steps.old + length frames.now }
{
    block.store_cells(pass, rear, frames, steps);
}

impl Client {
    // Loads the flags and then front, unless the proxy is shut.
    pub(crate) fn open<L: Ledger>(&mut self, block: &Block, steps: &mut Steps<L>) -> Opened
        requires ready { IsClientOf block.now self.old }
        ensures made { client_made self.new.pass ≡ block.now }
        ensures kept { (self.new.rear ≡ self.old.rear) × (self.new.flushes ≡ self.old.flushes) × (self.new.released ≡ self.old.released) }
        ensures opens { Opens self.old.pass.part self.old.rear self.old.shut result self.new.pass.part self.new.shut }
        ensures steps { steps.new ≡ steps.old + open_steps self.old.shut result }
    {
        if let Some((front, rear)) = self.shut {
            return Opened::Corrupt { front, rear };
        }
        let flags = block.load_flags(&mut self.pass, steps);
        if flags & INVALID != 0 {
            return Opened::Dead { flags };
        }
        let front = block.load_front(&mut self.pass, steps);
        let filled = self.rear.wrapping_sub(front);
        if filled > block.frames() {
            self.shut = Some((front, self.rear));
            return Opened::Corrupt {
                front,
                rear: self.rear,
            };
        }
        Opened::Open {
            front,
            room: block.frames() - filled,
        }
    }

    // Puts the first of these frames, as many as there is room for before the last cell, and answers how many.
    pub(crate) fn put<L: Ledger>(
        &mut self,
        block: &Block,
        frames: &[Frame],
        room: u32,
        steps: &mut Steps<L>,
    ) -> u32
        requires made { client_made self.old.pass ≡ block.now }
        requires rear { self.old.rear ≡ wrapped (released self.old.pass.part) }
        requires room { room ≤ room_of self.old.pass.part }
        requires released { self.old.released < 2 ^ 62 }
        ensures made { client_made self.new.pass ≡ block.now }
        ensures count { result ≡ min (length frames.now) (min room (block.now.shape.cells - released self.old.pass.part % block.now.shape.cells)) }
        ensures some { 1 ≤ room → 1 ≤ length frames.now → 1 ≤ result }
        ensures put { PutOn self.old.pass.part result (map packed_word (take result frames.now)) self.new.pass.part }
        ensures rear { self.new.rear ≡ wrapped (released self.new.pass.part) }
        ensures released { self.new.released ≡ self.old.released + result }
        ensures kept { (self.new.flushes ≡ self.old.flushes) × (self.new.shut ≡ self.old.shut) }
        ensures steps { steps.new ≡ steps.old + result + 1 }
    {
        let to_end = block.cells() - self.rear % block.cells();
        let most = room.min(to_end) as usize;
        let count = frames.len().min(most);
        store_frames(block, &mut self.pass, self.rear, &frames[..count], steps);
        let count = count as u32;
        block.store_rear(&mut self.pass, count, steps);
        self.rear = self.rear.wrapping_add(count);
        self.released += u64::from(count);
        count
    }
}
