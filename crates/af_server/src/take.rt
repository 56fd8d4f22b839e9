//! Taking frames.
ghost use Rattle.std.specs.Prelude.{◌≡◌, ◌+◌, ◌^◌, ◌<◌, [], length, Some, None};
ghost use Rattle.af_cblk.specs.Sides.{server_made};
ghost use Rattle.af_server.specs.Order.{IsServerOf, counted};
ghost use Rattle.af_server.specs.Looks.{Reads, Takes};

use crate::server::{Server, raised};
use af_base::{Frame, Steps};
use af_cblk::{Block, ServerPass};
use std::sync::ledger::Ledger;

/// Loads the cells of the positions from `front` on, which is the pass's front, one for each frame of `into`, below 2^32 of them. It raises nothing. So many steps.
///
/// Nothing was loaded since front was loaded or stored last.
pub fn load_frames<L: Ledger>(
    block: &Block,
    pass: &mut ServerPass,
    front: u32,
    into: &mut [Frame],
    steps: &mut Steps<L>,
)
    requires made { server_made pass.old ≡ block.now }
    requires front { front ≡ pass.old.part.front }
    requires none { pass.old.part.loaded ≡ [] }
    requires few { length into.old < 2 ^ 32 }
    ensures made { server_made pass.new ≡ block.now }
    ensures loaded { Reads pass.old pass.new into.new }
    ensures steps { steps.new ≡ steps.old + length into.old }
{
    block.load_cells(pass, front, into, steps);
}

impl Server {
    /// Takes the frames that the last call showed, which was a look that answered Frames. `into` has room for exactly these.
    ///
    /// It loads their cells, across the wrap if needed, and then raises front, in one step each.
    pub fn take<L: Ledger>(&mut self, block: &Block, into: &mut [Frame], steps: &mut Steps<L>)
        requires ready { IsServerOf block.now self.old }
        requires shown { self.old.shown ≡ Some (length into.old) }
        ensures ready { IsServerOf block.now self.new }
        ensures takes { Takes self.old into.new self.new }
        ensures kept { self.new ≡ (record self.old { pass = self.new.pass; shown = None; consumed = counted (self.old.consumed + length into.old) }) }
        ensures hand { self.new.pass.has_hand ≡ self.old.pass.has_hand }
        ensures steps { steps.new ≡ steps.old + length into.old + 1 }
    {
        let count = into.len() as u32;
        load_frames(block, &mut self.pass, self.front, into, steps);
        let front = self.front.wrapping_add(count);
        block.store_front(&mut self.pass, front, steps);
        self.shown = None;
        self.consumed = raised(self.consumed, count);
    }
}
