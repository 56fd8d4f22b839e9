//! Storing and loading the cells of a run of positions.
ghost use Rattle.std.specs.Prelude.{◌≡◌, ◌+◌, ◌-◌, ◌%◌, ◌<◌, ◌≤◌, ◌^◌, length, map};
ghost use Rattle.af_base.specs.Sample.{packed_word};
ghost use Rattle.af_model.specs.Point.{wrapped};
ghost use Rattle.af_cblk.specs.Parts.{released, room, number_at, cell_stored, cells_stored, next_stored, saw_cell, saw_next, next_position};
ghost use Rattle.af_cblk.specs.Shape.{IsShape};
ghost use Rattle.af_cblk.specs.Sides.{client_made, server_made, ServerIs};

use crate::block::Block;
use crate::pass::{ClientPass, ServerPass};
use crate::plays::{CellIsStored, SeesCell};
use crate::words::CELLS;
use af_base::{Frame, Steps};
use std::sync::ledger::Ledger;

impl Block {
    // Stores the word of the frame that is to be in the cell which is this word of the block.
    fn store_word<L: Ledger>(
        &self,
        pass: &mut ClientPass,
        index: usize,
        word: u32,
        steps: &mut Steps<L>,
    )
        requires made { client_made pass.old ≡ self.now }
        requires cell { (7 ≤ index) × (index < 7 + self.now.shape.cells) }
        requires room { number_at pass.old.part (index - 7) < length pass.old.part.frames + room pass.old.part }
        ensures made { client_made pass.new ≡ self.now }
        ensures stored { pass.new.part ≡ cell_stored pass.old.part (index - 7) word }
        ensures steps { steps.new ≡ steps.old + 1 }
    {
        self.table
            .shared
            .store::<CellIsStored>(&mut pass.seat, index, word as u64);
        steps.tick();
    }

    // Stores frames in a few cells, which lie one behind the other from a word of the block on.
    fn store_few<L: Ledger>(
        &self,
        pass: &mut ClientPass,
        first: usize,
        frames: &[Frame],
        steps: &mut Steps<L>,
    )
        requires made { client_made pass.old ≡ self.now }
        requires shape { IsShape self.now.shape }
        requires within { (7 ≤ first) × (first + length frames.now ≤ 7 + self.now.shape.cells) }
        requires room { number_at pass.old.part (first - 7) + length frames.now ≤ length pass.old.part.frames + room pass.old.part }
        ensures made { client_made pass.new ≡ self.now }
        ensures stored { pass.new.part ≡ cells_stored pass.old.part (first - 7) (map packed_word frames.now) }
        ensures steps { steps.new ≡ steps.old + length frames.now }
    {
        for i in 0..frames.len() {
            self.store_word(pass, first + i, frames[i].pack(), steps);
        }
    }

    // Stores frames in cells which lie one behind the other from a word of the block on: eight by eight, so that the compiler unrolls them, and then the rest.
    fn store_run<L: Ledger>(
        &self,
        pass: &mut ClientPass,
        first: usize,
        frames: &[Frame],
        steps: &mut Steps<L>,
    )
        requires made { client_made pass.old ≡ self.now }
        requires shape { IsShape self.now.shape }
        requires within { (7 ≤ first) × (first + length frames.now ≤ 7 + self.now.shape.cells) }
        requires room { number_at pass.old.part (first - 7) + length frames.now ≤ length pass.old.part.frames + room pass.old.part }
        ensures made { client_made pass.new ≡ self.now }
        ensures stored { pass.new.part ≡ cells_stored pass.old.part (first - 7) (map packed_word frames.now) }
        ensures steps { steps.new ≡ steps.old + length frames.now }
    {
        let mut done = 0;
        while frames.len() - done >= 8 {
            self.store_few(pass, first + done, &frames[done..done + 8], steps);
            done += 8;
        }
        if done < frames.len() {
            self.store_few(pass, first + done, &frames[done..], steps);
        }
    }

    /// Stores the words of the next frames in the cells of their positions: from `position` on, which is the client's own, and no more than there is room for by the front last seen. They are part of a later Release, and append nothing by themselves. So many steps.
    ///
    /// The cells are stored run by run: up to the last cell, and on from the first.
    pub fn store_cells<L: Ledger>(
        &self,
        pass: &mut ClientPass,
        position: u32,
        frames: &[Frame],
        steps: &mut Steps<L>,
    )
        requires made { client_made pass.old ≡ self.now }
        requires next { position ≡ wrapped (released pass.old.part) }
        requires room { length frames.now ≤ room pass.old.part }
        ensures made { client_made pass.new ≡ self.now }
        ensures stored { pass.new.part ≡ next_stored pass.old.part (map packed_word frames.now) }
        ensures steps { steps.new ≡ steps.old + length frames.now }
    {
        let end = CELLS + self.cells() as usize;
        let mut done = 0;
        while done < frames.len() {
            let first = self.cell_of(position.wrapping_add(done as u32));
            let count = (end - first).min(frames.len() - done);
            self.store_run(pass, first, &frames[done..done + count], steps);
            done += count;
        }
    }

    // Loads the cell that is this word of the block.
    fn load_word<L: Ledger>(&self, pass: &mut ServerPass, index: usize, steps: &mut Steps<L>) -> u32
        requires made { server_made pass.old ≡ self.now }
        requires cell { (7 ≤ index) × (index < 7 + self.now.shape.cells) }
        ensures made { server_made pass.new ≡ self.now }
        ensures saw { ServerIs (saw_cell pass.old.part (index - 7) result) pass.old pass.new }
        ensures steps { steps.new ≡ steps.old + 1 }
    {
        let found = self.table.shared.load::<SeesCell>(&mut pass.seat, index);
        steps.tick();
        (found & 0xffff_ffff) as u32
    }

    // Loads a few cells, which lie one behind the other from a word of the block on.
    fn load_few<L: Ledger>(
        &self,
        pass: &mut ServerPass,
        first: usize,
        into: &mut [Frame],
        steps: &mut Steps<L>,
    )
        requires made { server_made pass.old ≡ self.now }
        requires shape { IsShape self.now.shape }
        requires next { first ≡ 7 + wrapped (next_position pass.old.part) % self.now.shape.cells }
        requires within { first + length into.old ≤ 7 + self.now.shape.cells }
        ensures made { server_made pass.new ≡ self.now }
        ensures saw { ServerIs (saw_next pass.old.part (map packed_word into.new)) pass.old pass.new }
        ensures steps { steps.new ≡ steps.old + length into.old }
    {
        for i in 0..into.len() {
            let word = self.load_word(pass, first + i, steps);
            into[i] = Frame::unpack(word);
        }
    }

    // Loads the next cells, which lie one behind the other from a word of the block on: eight by eight, so that the compiler unrolls them, and then the rest.
    fn load_run<L: Ledger>(
        &self,
        pass: &mut ServerPass,
        first: usize,
        into: &mut [Frame],
        steps: &mut Steps<L>,
    )
        requires made { server_made pass.old ≡ self.now }
        requires shape { IsShape self.now.shape }
        requires next { first ≡ 7 + wrapped (next_position pass.old.part) % self.now.shape.cells }
        requires within { first + length into.old ≤ 7 + self.now.shape.cells }
        ensures made { server_made pass.new ≡ self.now }
        ensures saw { ServerIs (saw_next pass.old.part (map packed_word into.new)) pass.old pass.new }
        ensures steps { steps.new ≡ steps.old + length into.old }
    {
        let mut done = 0;
        while into.len() - done >= 8 {
            self.load_few(pass, first + done, &mut into[done..done + 8], steps);
            done += 8;
        }
        if done < into.len() {
            self.load_few(pass, first + done, &mut into[done..], steps);
        }
    }

    /// Loads the cells of the next positions, one for each frame of `into`, below 2^32 of them: from `position` on, which is as far past the front last seen as cells were loaded since. They are part of a later Take, and append nothing by themselves. So many steps.
    ///
    /// The cells are loaded run by run: up to the last cell, and on from the first.
    pub fn load_cells<L: Ledger>(
        &self,
        pass: &mut ServerPass,
        position: u32,
        into: &mut [Frame],
        steps: &mut Steps<L>,
    )
        requires made { server_made pass.old ≡ self.now }
        requires next { position ≡ wrapped (next_position pass.old.part) }
        requires few { length into.old < 2 ^ 32 }
        ensures made { server_made pass.new ≡ self.now }
        ensures saw { ServerIs (saw_next pass.old.part (map packed_word into.new)) pass.old pass.new }
        ensures steps { steps.new ≡ steps.old + length into.old }
    {
        let end = CELLS + self.cells() as usize;
        let mut done = 0;
        while done < into.len() {
            let first = self.cell_of(position.wrapping_add(done as u32));
            let count = (end - first).min(into.len() - done);
            self.load_run(pass, first, &mut into[done..done + count], steps);
            done += count;
        }
    }
}
