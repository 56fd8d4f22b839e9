//! Flushes, gains, flags, the status word, and words stored out of turn.
ghost use Rattle.std.specs.Prelude.{◌≡◌, ◌+◌, ◌<◌};
ghost use Rattle.af_base.specs.declared.event.ClientEvent.TheVariants as client_event;
ghost use Rattle.af_cblk.specs.Parts.{client_did, client_flushed};
ghost use Rattle.af_cblk.specs.Shape.{most_flushes};
ghost use Rattle.af_client.specs.Order.{IsClientOf};

use crate::client::Client;
use af_base::{DISABLED, Steps};
use af_cblk::Block;
use std::sync::ledger::Ledger;

impl Client {
    /// Asks the server to discard all frames up to the rear that it sees next, or on a positional block those released before this flush and no later ones, and answers how many flushes this client has asked for. One step.
    ///
    /// There were fewer flushes so far than 2^32 - 2, or on a positional block than 2^32 / wrap - 1.
    pub fn flush<L: Ledger>(&mut self, block: &Block, steps: &mut Steps<L>) -> u32
        requires ready { IsClientOf block.now self.old }
        requires few { self.old.flushes < most_flushes block.now.shape.wrap }
        ensures ready { IsClientOf block.now self.new }
        ensures flushed { self.new.pass.part ≡ client_flushed self.old.pass.part }
        ensures count { result ≡ self.old.flushes + 1 }
        ensures kept { self.new ≡ (record self.old { pass = self.new.pass; flushes = result }) }
        ensures steps { steps.new ≡ steps.old + 1 }
    {
        block.add_flush(&mut self.pass, steps);
        self.flushes += 1;
        self.flushes
    }

    /// Sets the gains: left in the low 16 bits, right in the high 16 bits, each in 4.12. One step.
    pub fn set_gains<L: Ledger>(&mut self, block: &Block, word: u32, steps: &mut Steps<L>)
        requires ready { IsClientOf block.now self.old }
        ensures ready { IsClientOf block.now self.new }
        ensures set { self.new.pass.part ≡ client_did self.old.pass.part (client_event.SetGain word) }
        ensures kept { self.new ≡ (record self.old { pass = self.new.pass }) }
        ensures steps { steps.new ≡ steps.old + 1 }
    {
        block.store_volume(&mut self.pass, word, steps);
    }

    /// Clears DISABLED (0x08), and answers the flags before. One step.
    pub fn clear_disabled<L: Ledger>(&mut self, block: &Block, steps: &mut Steps<L>) -> u32
        requires ready { IsClientOf block.now self.old }
        ensures ready { IsClientOf block.now self.new }
        ensures cleared { self.new.pass.part ≡ client_did self.old.pass.part (client_event.ClearFlags result) }
        ensures kept { self.new ≡ (record self.old { pass = self.new.pass }) }
        ensures steps { steps.new ≡ steps.old + 1 }
    {
        block.clear_flags(&mut self.pass, DISABLED, steps)
    }

    /// The status word that the server stored last. One step.
    pub fn status<L: Ledger>(&mut self, block: &Block, steps: &mut Steps<L>) -> u32
        requires ready { IsClientOf block.now self.old }
        ensures ready { IsClientOf block.now self.new }
        ensures saw { self.new.pass.part ≡ client_did self.old.pass.part (client_event.SawStatus result) }
        ensures kept { self.new ≡ (record self.old { pass = self.new.pass }) }
        ensures steps { steps.new ≡ steps.old + 1 }
    {
        block.load_status(&mut self.pass, steps)
    }

    /// Stores any value into any word or cell of the block, out of turn: word 0 to 6, or 7 plus the number of a cell. One step.
    ///
    /// From then on this client isn't lawful, and nothing is claimed of the block's words. Each call stays safe, and answers by the words that it sees.
    pub fn poke<L: Ledger>(&mut self, block: &Block, word: u32, value: u32, steps: &mut Steps<L>)
        requires ready { IsClientOf block.now self.old }
        requires word { word < 7 + block.now.shape.cells }
        ensures ready { IsClientOf block.now self.new }
        ensures poked { self.new.pass.part ≡ client_did self.old.pass.part (client_event.Poke word value) }
        ensures kept { self.new ≡ (record self.old { pass = self.new.pass }) }
        ensures steps { steps.new ≡ steps.old + 1 }
    {
        block.poke(&mut self.pass, word, value, steps);
    }
}
