//! Putting frames into a pipe.
ghost use Rattle.std.specs.Prelude.{◌≡◌, ◌+◌, ◌-◌, ◌≤◌, map, length};
ghost use Rattle.af_base.specs.Sample.{packed_word};
ghost use Rattle.af_model.specs.PipeHistory.{releases_of};
ghost use Rattle.af_cblk.specs.Parts.{client_saw_front};
ghost use Rattle.af_client.specs.Calls.{PutOn};
ghost use Rattle.af_link.specs.PipeEnds.{in_made, room_of, HasPut};

use crate::ends::PipeIn;
use af_base::{Frame, Steps};
use af_cblk::Block;
use af_client::store_frames;
use std::sync::ledger::Ledger;

impl PipeIn {
    /// The free frames by the front that this call sees: the pipe's size without the frames put and not taken there. It appends SawFront. One step.
    pub fn room<L: Ledger>(&mut self, block: &Block, steps: &mut Steps<L>) -> u32
        requires { in_made self.old ≡ block.now }
        ensures made { in_made self.new ≡ block.now }
        ensures saw { self.new.pass.part ≡ client_saw_front self.old.pass.part self.new.pass.part.front }
        ensures room { (result ≡ room_of self.new.pass.part) × (self.new.room ≡ result) }
        ensures steps { steps.new ≡ steps.old + 1 }
    {
        let front = block.load_front(&mut self.pass, steps);
        let filled = self.rear.wrapping_sub(front);
        self.room = block.frames() - filled;
        self.room
    }

    /// Puts all of these frames, no more than the room that is left. They are stored in their cells and released in one release, or in two if the index reaches the number of cells in between. No frames are no release. The room shrinks by them. A step for each frame and for each release.
    pub fn put<L: Ledger>(&mut self, block: &Block, frames: &[Frame], steps: &mut Steps<L>)
        requires made { in_made self.old ≡ block.now }
        requires room { length frames.now ≤ self.old.room }
        ensures made { in_made self.new ≡ block.now }
        ensures put { HasPut self.old.pass.part frames.now self.new.pass.part }
        ensures room { self.new.room ≡ self.old.room - length frames.now }
        ensures steps { steps.new ≡ steps.old + length frames.now + length (releases_of block.now.shape.cells (length self.old.pass.part.frames) (length frames.now)) }
    {
        if frames.is_empty() {
            return;
        }
        let to_end = (block.cells() - self.rear % block.cells()) as usize;
        let (before, behind) = frames.split_at(frames.len().min(to_end));
        self.release(block, before, steps);
        if behind.is_empty() {
            return;
        }
        self.release(block, behind, steps);
    }

    // Stores these frames and releases them at once.
    fn release<L: Ledger>(&mut self, block: &Block, frames: &[Frame], steps: &mut Steps<L>)
        requires made { in_made self.old ≡ block.now }
        requires room { length frames.now ≤ self.old.room }
        ensures made { in_made self.new ≡ block.now }
        ensures put { PutOn self.old.pass.part (length frames.now) (map packed_word frames.now) self.new.pass.part }
        ensures room { self.new.room ≡ self.old.room - length frames.now }
        ensures steps { steps.new ≡ steps.old + length frames.now + 1 }
    {
        store_frames(block, &mut self.pass, self.rear, frames, steps);
        let count = frames.len() as u32;
        block.store_rear(&mut self.pass, count, steps);
        self.rear = self.rear.wrapping_add(count);
        self.room -= count;
    }
}
