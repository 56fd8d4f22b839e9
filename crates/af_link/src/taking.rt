//! Taking frames out of a pipe.
ghost use Rattle.std.specs.Prelude.{◌≡◌, ◌+◌, ◌≤◌, min, length};
ghost use Rattle.af_cblk.specs.Parts.{ahead, saw_rear, server_saw_front};
ghost use Rattle.af_cblk.specs.Sides.{server_made, ServerIs};
ghost use Rattle.af_link.specs.PipeEnds.{out_made, taken_by};

use crate::ends::PipeOut;
use af_base::{Frame, Steps};
use af_cblk::Block;
use af_server::load_frames;
use std::sync::ledger::Ledger;

impl PipeOut {
    /// How many frames may be taken: the lesser of `ask` and what the rear that this call sees shows. It loads rear and then front, and appends SawRear and SawFront. Two steps.
    pub fn look<L: Ledger>(&mut self, block: &Block, ask: u32, steps: &mut Steps<L>) -> u32
        requires { out_made self.old ≡ block.now }
        ensures made { out_made self.new ≡ block.now }
        ensures saw { ServerIs (server_saw_front (saw_rear self.old.pass.part self.new.pass.part.rear) self.new.pass.part.front) self.old.pass self.new.pass }
        ensures shows { result ≡ min ask (ahead self.new.pass.part.front self.new.pass.part.rear) }
        ensures shown { self.new.shown ≡ result }
        ensures steps { steps.new ≡ steps.old + 2 }
    {
        self.rear = block.load_rear(&mut self.pass, steps);
        self.front = block.load_front(&mut self.pass, steps);
        self.shown = ask.min(self.rear.wrapping_sub(self.front));
        self.shown
    }

    /// The rear that the last look saw: the number of frames put by then, modulo 2^32. It is 0 before any look.
    pub fn rear(&self) -> u32
        ensures { result ≡ self.now.pass.part.rear }
    {
        self.rear
    }

    /// Takes exactly the frames that the last look showed, of which there is at least one and none was taken since. It loads their cells, across the wrap if needed, and then raises front, in one step each. It appends Take.
    pub fn take<L: Ledger>(&mut self, block: &Block, into: &mut [Frame], steps: &mut Steps<L>)
        requires made { out_made self.old ≡ block.now }
        requires some { 1 ≤ length into.old }
        requires shown { self.old.shown ≡ length into.old }
        ensures made { out_made self.new ≡ block.now }
        ensures taken { ServerIs (taken_by self.old.pass.part into.new) self.old.pass self.new.pass }
        ensures shown { self.new.shown ≡ 0 }
        ensures steps { steps.new ≡ steps.old + length into.old + 1 }
    {
        load_frames(block, &mut self.pass, self.front, into, steps);
        self.front = self.front.wrapping_add(into.len() as u32);
        block.store_front(&mut self.pass, self.front, steps);
        self.shown = 0;
    }
}
