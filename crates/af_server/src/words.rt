//! Gains, missing frames, flags and the status word.
ghost use Rattle.std.specs.Prelude.{◌≡◌, ◌+◌, ◌≤◌};
ghost use Rattle.af_base.specs.declared.event.ServerEvent.TheVariants as server_event;
ghost use Rattle.af_server.specs.Order.{IsServerOf, did};

use crate::server::Server;
use af_base::{Steps, UNDERRUN};
use af_cblk::Block;
use std::sync::ledger::Ledger;

impl Server {
    /// The gains that the client set last: left in the low 16 bits, right in the high 16 bits. One step.
    pub fn gains<L: Ledger>(&mut self, block: &Block, steps: &mut Steps<L>) -> u32
        requires ready { IsServerOf block.now self.old }
        ensures ready { IsServerOf block.now self.new }
        ensures saw { self.new ≡ did self.old (server_event.SawGain result) }
        ensures steps { steps.new ≡ steps.old + 1 }
    {
        self.shown = None;
        block.load_volume(&mut self.pass, steps)
    }

    /// Adds to the count of missing frames, and sets UNDERRUN (0x01). Two steps.
    pub fn tally<L: Ledger>(&mut self, block: &Block, missing: u32, steps: &mut Steps<L>)
        requires ready { IsServerOf block.now self.old }
        requires missing { 1 ≤ missing }
        ensures ready { IsServerOf block.now self.new }
        ensures tallied { self.new ≡ did (did self.old (server_event.Tally missing)) (server_event.SetFlags 1) }
        ensures steps { steps.new ≡ steps.old + 2 }
    {
        self.shown = None;
        block.add_underrun(&mut self.pass, missing, steps);
        block.set_flags(&mut self.pass, UNDERRUN, steps);
    }

    /// Sets flags, beside those that are set. One step.
    pub fn set_flags<L: Ledger>(&mut self, block: &Block, bits: u32, steps: &mut Steps<L>)
        requires ready { IsServerOf block.now self.old }
        ensures ready { IsServerOf block.now self.new }
        ensures set { self.new ≡ did self.old (server_event.SetFlags bits) }
        ensures steps { steps.new ≡ steps.old + 1 }
    {
        self.shown = None;
        block.set_flags(&mut self.pass, bits, steps);
    }

    /// Stores the status word. One step.
    pub fn set_status<L: Ledger>(&mut self, block: &Block, word: u32, steps: &mut Steps<L>)
        requires ready { IsServerOf block.now self.old }
        ensures ready { IsServerOf block.now self.new }
        ensures stored { self.new ≡ did self.old (server_event.SetStatus word) }
        ensures steps { steps.new ≡ steps.old + 1 }
    {
        self.shown = None;
        block.store_status(&mut self.pass, word, steps);
    }
}
