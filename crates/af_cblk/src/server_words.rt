//! The server's word calls, and the hand's.
ghost use Rattle.std.specs.Prelude.{◌≡◌, ◌+◌, ◌%◌};
ghost use Rattle.af_base.specs.declared.event.ServerEvent.TheVariants as server_event;
ghost use Rattle.af_cblk.specs.Parts.{server_did, saw_flush, saw_rear, server_saw_front, saw_cell, front_stored, MayStoreFront, hand_set};
ghost use Rattle.af_cblk.specs.Sides.{server_made, hand_made, ServerIs};

use crate::block::Block;
use crate::pass::{FlagHand, ServerPass};
use crate::plays::{
    FlagsAreSet, FrontIsStored, HandSets, SeesCell, SeesFlush, SeesGain, SeesRear, ServerSeesFront,
    StatusIsStored, Tallies,
};
use crate::words::{FLAGS, FLUSHES, FRONT, GAINS, REAR, STATUS, UNDERRUNS};
use af_base::{DISABLED, Steps};
use std::sync::ledger::Ledger;

impl Block {
    /// Loads the flush word. It appends SawFlush. A word that differs from the last one is a new flush, until the frames are dropped.
    pub fn load_flush<L: Ledger>(&self, pass: &mut ServerPass, steps: &mut Steps<L>) -> u32
        requires { server_made pass.old ≡ self.now }
        ensures made { server_made pass.new ≡ self.now }
        ensures saw { ServerIs (saw_flush pass.old.part result) pass.old pass.new }
        ensures steps { steps.new ≡ steps.old + 1 }
    {
        let found = self.table.shared.load::<SeesFlush>(&mut pass.seat, FLUSHES);
        steps.tick();
        (found & 0xffff_ffff) as u32
    }

    /// Loads rear. It appends SawRear.
    pub fn load_rear<L: Ledger>(&self, pass: &mut ServerPass, steps: &mut Steps<L>) -> u32
        requires { server_made pass.old ≡ self.now }
        ensures made { server_made pass.new ≡ self.now }
        ensures saw { ServerIs (saw_rear pass.old.part result) pass.old pass.new }
        ensures steps { steps.new ≡ steps.old + 1 }
    {
        let found = self.table.shared.load::<SeesRear>(&mut pass.seat, REAR);
        steps.tick();
        (found & 0xffff_ffff) as u32
    }

    /// Loads front by the server's pass. It appends SawFront.
    pub(crate) fn server_front<L: Ledger>(&self, pass: &mut ServerPass, steps: &mut Steps<L>) -> u32
        requires { server_made pass.old ≡ self.now }
        ensures made { server_made pass.new ≡ self.now }
        ensures saw { ServerIs (server_saw_front pass.old.part result) pass.old pass.new }
        ensures steps { steps.new ≡ steps.old + 1 }
    {
        let found = self
            .table
            .shared
            .load::<ServerSeesFront>(&mut pass.seat, FRONT);
        steps.tick();
        (found & 0xffff_ffff) as u32
    }

    /// Loads the gains. It appends SawGain.
    pub fn load_volume<L: Ledger>(&self, pass: &mut ServerPass, steps: &mut Steps<L>) -> u32
        requires { server_made pass.old ≡ self.now }
        ensures made { server_made pass.new ≡ self.now }
        ensures saw { ServerIs (server_did pass.old.part (server_event.SawGain result)) pass.old pass.new }
        ensures steps { steps.new ≡ steps.old + 1 }
    {
        let found = self.table.shared.load::<SeesGain>(&mut pass.seat, GAINS);
        steps.tick();
        (found & 0xffff_ffff) as u32
    }

    /// Loads the cell of this position. It is part of a later Take, and appends nothing by itself.
    pub fn load_cell<L: Ledger>(
        &self,
        pass: &mut ServerPass,
        position: u32,
        steps: &mut Steps<L>,
    ) -> u32
        requires { server_made pass.old ≡ self.now }
        ensures made { server_made pass.new ≡ self.now }
        ensures saw { ServerIs (saw_cell pass.old.part (position % self.now.shape.cells) result) pass.old pass.new }
        ensures steps { steps.new ≡ steps.old + 1 }
    {
        let index = self.cell_of(position);
        let found = self.table.shared.load::<SeesCell>(&mut pass.seat, index);
        steps.tick();
        (found & 0xffff_ffff) as u32
    }

    /// Stores front.
    ///
    /// After a new flush the position is the rear seen since: all frames up to it are dropped. On a positional block it is the position of the flush, or the front last seen if that is later. It appends Drop.
    ///
    /// Without a new flush it lies some frames past the front last seen, and not past the rear seen before: these frames are taken. Front was loaded after that rear and since the last store of front, and since then the cells of these frames were loaded, in order. It appends Take, and the frames to the server's.
    ///
    /// On a positional block the flush word was loaded since the last store of front, rear since that load, and front after that rear, in either case.
    pub fn store_front<L: Ledger>(&self, pass: &mut ServerPass, position: u32, steps: &mut Steps<L>)
        requires made { server_made pass.old ≡ self.now }
        requires position { MayStoreFront pass.old.part position }
        ensures made { server_made pass.new ≡ self.now }
        ensures stored { ServerIs (front_stored pass.old.part position) pass.old pass.new }
        ensures steps { steps.new ≡ steps.old + 1 }
    {
        self.table
            .shared
            .store::<FrontIsStored>(&mut pass.seat, FRONT, position as u64);
        steps.tick();
    }

    /// Adds to the count of missing frames. It appends Tally.
    pub fn add_underrun<L: Ledger>(&self, pass: &mut ServerPass, missing: u32, steps: &mut Steps<L>)
        requires { server_made pass.old ≡ self.now }
        ensures made { server_made pass.new ≡ self.now }
        ensures tallied { ServerIs (server_did pass.old.part (server_event.Tally missing)) pass.old pass.new }
        ensures steps { steps.new ≡ steps.old + 1 }
    {
        self.table
            .shared
            .fetch_add::<Tallies>(&mut pass.seat, UNDERRUNS, missing as u64);
        steps.tick();
    }

    /// Sets flags. It appends SetFlags.
    pub fn set_flags<L: Ledger>(&self, pass: &mut ServerPass, bits: u32, steps: &mut Steps<L>)
        requires { server_made pass.old ≡ self.now }
        ensures made { server_made pass.new ≡ self.now }
        ensures set { ServerIs (server_did pass.old.part (server_event.SetFlags bits)) pass.old pass.new }
        ensures steps { steps.new ≡ steps.old + 1 }
    {
        self.table
            .shared
            .fetch_or::<FlagsAreSet>(&mut pass.seat, FLAGS, bits as u64);
        steps.tick();
    }

    /// Stores the status word. It appends SetStatus.
    pub fn store_status<L: Ledger>(&self, pass: &mut ServerPass, word: u32, steps: &mut Steps<L>)
        requires { server_made pass.old ≡ self.now }
        ensures made { server_made pass.new ≡ self.now }
        ensures stored { ServerIs (server_did pass.old.part (server_event.SetStatus word)) pass.old pass.new }
        ensures steps { steps.new ≡ steps.old + 1 }
    {
        self.table
            .shared
            .store::<StatusIsStored>(&mut pass.seat, STATUS, word as u64);
        steps.tick();
    }

    /// Sets DISABLED (0x08), by the hand. It appends SetFlags to the hand's list.
    pub fn set_disabled<L: Ledger>(&self, hand: &mut FlagHand, steps: &mut Steps<L>)
        requires { hand_made hand.old ≡ self.now }
        ensures made { hand_made hand.new ≡ self.now }
        ensures set { hand.new ≡ (record hand.old { part = hand_set hand.old.part }) }
        ensures steps { steps.new ≡ steps.old + 1 }
    {
        self.table
            .shared
            .fetch_or::<HandSets>(&mut hand.seat, FLAGS, DISABLED as u64);
        steps.tick();
    }
}
