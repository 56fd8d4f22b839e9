//! The client's word calls.
ghost use Rattle.std.specs.Prelude.{◌≡◌, ◌+◌, ◌<◌, true};
ghost use Rattle.af_base.specs.declared.event.ClientEvent.TheVariants as client_event;
ghost use Rattle.af_model.specs.History.{is_lawful, flushes_of};
ghost use Rattle.af_cblk.specs.Shape.{most_flushes};
ghost use Rattle.af_cblk.specs.Parts.{ahead, released, room, AreStored, client_did, client_flushed, flush_amount, stored_at, rear_stored, recorded};
ghost use Rattle.af_cblk.specs.Plays.{HasFlags};
ghost use Rattle.af_cblk.specs.Sides.{client_made, ClientSawFront};

use crate::block::Block;
use crate::pass::ClientPass;
use crate::plays::{
    CellIsStored, ClientSeesFlags, ClientSeesFront, ClientSeesStatus, FlagsAreCleared, Flushes,
    GainIsStored, Pokes, RearIsStored,
};
use crate::words::{FLAGS, FLUSHES, FRONT, GAINS, REAR, STATUS};
use af_base::Steps;
use std::sync::ledger::Ledger;

impl Block {
    /// Loads front by the client's pass. It appends SawFront.
    pub(crate) fn client_front<L: Ledger>(&self, pass: &mut ClientPass, steps: &mut Steps<L>) -> u32
        requires { client_made pass.old ≡ self.now }
        ensures made { client_made pass.new ≡ self.now }
        ensures saw { ClientSawFront pass.old result pass.new }
        ensures steps { steps.new ≡ steps.old + 1 }
    {
        let found = self
            .table
            .shared
            .load::<ClientSeesFront>(&mut pass.seat, FRONT);
        steps.tick();
        (found & 0xffff_ffff) as u32
    }

    /// Stores the word of the frame that is to be at this position. It is part of a later Release, and appends nothing by itself.
    ///
    /// The position lies past the released frames, inside the room that the front last seen leaves. A cell may be stored again until it is released.
    pub fn store_cell<L: Ledger>(
        &self,
        pass: &mut ClientPass,
        position: u32,
        word: u32,
        steps: &mut Steps<L>,
    )
        requires made { client_made pass.old ≡ self.now }
        requires room { ahead (released pass.old.part) position < room pass.old.part }
        ensures made { client_made pass.new ≡ self.now }
        ensures stored { pass.new.part ≡ stored_at pass.old.part position word }
        ensures steps { steps.new ≡ steps.old + 1 }
    {
        let index = self.cell_of(position);
        self.table
            .shared
            .store::<CellIsStored>(&mut pass.seat, index, word as u64);
        steps.tick();
    }

    /// Releases the next `count` frames, whose cells were stored: rear grows by `count`. It appends Release, and the frames to the client's.
    pub fn store_rear<L: Ledger>(&self, pass: &mut ClientPass, count: u32, steps: &mut Steps<L>)
        requires made { client_made pass.old ≡ self.now }
        requires stored { AreStored pass.old.part count }
        ensures made { client_made pass.new ≡ self.now }
        ensures released { pass.new.part ≡ rear_stored pass.old.part count }
        ensures steps { steps.new ≡ steps.old + 1 }
    {
        let rear = pass.rear.wrapping_add(count);
        self.table
            .shared
            .store::<RearIsStored>(&mut pass.seat, REAR, rear as u64);
        pass.rear = rear;
        steps.tick();
    }

    /// Loads the flags. It appends SawFlags, with the flags if INVALID (0x04) is set in them, and else with 0.
    ///
    /// Of a client that has not poked all bits are those of the flags at the end of a history of its list.
    pub fn load_flags<L: Ledger>(&self, pass: &mut ClientPass, steps: &mut Steps<L>) -> u32
        requires { client_made pass.old ≡ self.now }
        ensures made { client_made pass.new ≡ self.now }
        ensures saw { pass.new.part ≡ client_did pass.old.part (client_event.SawFlags (recorded result)) }
        ensures flags { is_lawful pass.old.part.events ≡ true → HasFlags pass.old.part result }
        ensures steps { steps.new ≡ steps.old + 1 }
    {
        let found = self
            .table
            .shared
            .load::<ClientSeesFlags>(&mut pass.seat, FLAGS);
        steps.tick();
        (found & 0xffff_ffff) as u32
    }

    /// Loads the status word. It appends SawStatus.
    pub fn load_status<L: Ledger>(&self, pass: &mut ClientPass, steps: &mut Steps<L>) -> u32
        requires { client_made pass.old ≡ self.now }
        ensures made { client_made pass.new ≡ self.now }
        ensures saw { pass.new.part ≡ client_did pass.old.part (client_event.SawStatus result) }
        ensures steps { steps.new ≡ steps.old + 1 }
    {
        let found = self
            .table
            .shared
            .load::<ClientSeesStatus>(&mut pass.seat, STATUS);
        steps.tick();
        (found & 0xffff_ffff) as u32
    }

    // What a flush adds to the flush word.
    fn flush_step(&self, pass: &ClientPass) -> u32
        requires { client_made pass.now ≡ self.now }
        ensures { result ≡ flush_amount pass.now.part }
    {
        let wrap = self.shape.wrap;
        if wrap == 0 {
            return 1;
        }
        wrap + pass.rear % wrap - pass.flushed % wrap
    }

    /// Asks for a flush by one add to the flush word, and answers how many flushes this client has asked for. It appends Flush.
    ///
    /// The word is then the number of flushes if the client has not poked, or on a positional block so many wraps with the place of its position in a wrap. There are fewer flushes so far than the word has room for: than 2^32 - 2, or on a positional block than 2^32 / wrap - 1.
    pub fn add_flush<L: Ledger>(&self, pass: &mut ClientPass, steps: &mut Steps<L>) -> u32
        requires made { client_made pass.old ≡ self.now }
        requires room { flushes_of pass.old.part.events < most_flushes self.now.shape.wrap }
        ensures made { client_made pass.new ≡ self.now }
        ensures flushed { pass.new.part ≡ client_flushed pass.old.part }
        ensures count { result ≡ flushes_of pass.old.part.events + 1 }
        ensures steps { steps.new ≡ steps.old + 1 }
    {
        let amount = self.flush_step(pass);
        self.table
            .shared
            .fetch_add::<Flushes>(&mut pass.seat, FLUSHES, amount as u64);
        steps.tick();
        pass.flushed = pass.rear;
        pass.flushes += 1;
        pass.flushes
    }

    /// Stores the gains: left in the low 16 bits, right in the high 16 bits, each in 4.12. It appends SetGain.
    pub fn store_volume<L: Ledger>(&self, pass: &mut ClientPass, word: u32, steps: &mut Steps<L>)
        requires { client_made pass.old ≡ self.now }
        ensures made { client_made pass.new ≡ self.now }
        ensures stored { pass.new.part ≡ client_did pass.old.part (client_event.SetGain word) }
        ensures steps { steps.new ≡ steps.old + 1 }
    {
        self.table
            .shared
            .store::<GainIsStored>(&mut pass.seat, GAINS, word as u64);
        steps.tick();
    }

    /// Clears DISABLED (0x08), and answers the flags before. It appends ClearFlags.
    pub fn clear_flags<L: Ledger>(
        &self,
        pass: &mut ClientPass,
        bits: u32,
        steps: &mut Steps<L>,
    ) -> u32
        requires made { client_made pass.old ≡ self.now }
        requires bits { bits ≡ 8 }
        ensures made { client_made pass.new ≡ self.now }
        ensures cleared { pass.new.part ≡ client_did pass.old.part (client_event.ClearFlags result) }
        ensures steps { steps.new ≡ steps.old + 1 }
    {
        let others = !bits as u64;
        let found = self
            .table
            .shared
            .fetch_and::<FlagsAreCleared>(&mut pass.seat, FLAGS, others);
        steps.tick();
        (found & 0xffff_ffff) as u32
    }

    /// Stores any value into any of the words and cells, out of turn. It appends Poke.
    ///
    /// From then on nothing is claimed of the words, and no order of the parties' events. Each call on this block stays safe, ends, and appends its own event.
    pub fn poke<L: Ledger>(
        &self,
        pass: &mut ClientPass,
        word: u32,
        value: u32,
        steps: &mut Steps<L>,
    )
        requires made { client_made pass.old ≡ self.now }
        requires word { word < 7 + self.now.shape.cells }
        ensures made { client_made pass.new ≡ self.now }
        ensures poked { pass.new.part ≡ client_did pass.old.part (client_event.Poke word value) }
        ensures steps { steps.new ≡ steps.old + 1 }
    {
        self.table
            .shared
            .store::<Pokes>(&mut pass.seat, word as usize, value as u64);
        steps.tick();
    }
}
