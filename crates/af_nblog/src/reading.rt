//! Reading notes.
ghost use Rattle.std.specs.Prelude.{◌≡◌, ◌+◌, ◌≤◌, ◌++◌, List, length};
ghost use Rattle.af_nblog.specs.declared.entries.Note.{Note as SomeNote};
ghost use Rattle.af_nblog.specs.NoteEnds.{reader_made, read, ReadBy, listed, read_steps};
ghost use Rattle.af_nblog.specs.NoteRounds.{HasDrained};

use crate::ends::NoteReader;
use crate::entries::Note;
use crate::words::note_in;
use af_base::{Frame, Items, Steps};
use af_cblk::Block;
use std::sync::ledger::Ledger;

impl NoteReader {
    /// Takes the next note. None exactly if the rear that it sees shows no note left.
    pub fn next<L: Ledger>(&mut self, block: &Block, steps: &mut Steps<L>) -> Option<Note>
        requires made { reader_made self.old ≡ block.now }
        ensures made { reader_made self.new ≡ block.now }
        ensures reads { ReadBy self.old.pass result self.new.pass }
        ensures notes { read self.new ≡ read self.old ++ listed result }
        ensures steps { steps.new ≡ steps.old + read_steps result }
    {
        if self.takes.look(block, 8, steps) < 8 {
            return None;
        }
        let mut into = [Frame::unpack(0); 8];
        self.takes.take(block, &mut into, steps);
        Some(note_in(&into))
    }
    /// A turn of the end that reads: it takes notes until it sees none left, or has taken as many as the log has room for, and puts them behind others, if there is room for so many. It takes no memory.
    pub fn drain<L: Ledger>(
        &mut self,
        block: &Block,
        room: u32,
        notes: &mut Items<Note>,
        steps: &mut Steps<L>,
    )
        requires made { reader_made self.old ≡ block.now }
        requires room { length notes.old.items + room ≤ notes.old.room }
        ensures made { reader_made self.new ≡ block.now }
        ensures drains { (more : List SomeNote) × (notes.new ≡ record notes.old { items = notes.old.items ++ more }) × (read self.new ≡ read self.old ++ more) × HasDrained room self.old.pass more self.new.pass }
    {
        for i in 0..room {
            let Some(note) = self.next(block, steps) else {
                return;
            };
            notes.push(note);
        }
    }
}
