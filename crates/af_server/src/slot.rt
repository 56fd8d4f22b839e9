//! What a mixer does with the server of one slot.
ghost use Rattle.std.specs.Prelude.{◌≡◌, ◌+◌, ◌<◌, ◌≤◌, ◌^◌, length, take, Bool, []};
ghost use Rattle.af_base.specs.Log.{count_seen};
ghost use Rattle.af_model.specs.Cycles.{events_behind_look, place_of, tally};
ghost use Rattle.af_model.specs.ServerCalls.{shown_by};
ghost use Rattle.af_server.specs.Order.{IsServerOf};
ghost use Rattle.af_server.specs.Looks.{WithinAsk};
ghost use Rattle.af_server.specs.Slot.{HasDone, Plays};

use crate::server::Server;
use af_base::{Frame, INVALID, Seen, SlotEntry, Steps};
use af_cblk::Block;
use std::sync::ledger::Ledger;

/// Where the frames of a slot stand in a list of frames that had so many before: 0 if it took none.
pub fn place_of(place: usize, seen: Seen) -> usize
    ensures { result ≡ place_of place seen }
{
    match seen {
        Seen::Frames { count } if count > 0 => place,
        _ => 0,
    }
}

impl Server {
    // Tallies missing frames, if there are some.
    fn tally_some<L: Ledger>(&mut self, block: &Block, missing: usize, steps: &mut Steps<L>)
        requires ready { IsServerOf block.now self.old }
        requires few { missing < 2 ^ 32 }
        ensures ready { IsServerOf block.now self.new }
        ensures list { HasDone self.old (tally missing) [] self.new }
        ensures steps { steps.new ≡ steps.old + length (tally missing) }
    {
        if missing > 0 {
            self.tally(block, missing as u32, steps);
        }
    }

    // What follows a look: all frames shown are taken and those missing tallied, and INVALID is set if it shut the server.
    fn follow<L: Ledger>(
        &mut self,
        block: &Block,
        was_shut: bool,
        seen: Seen,
        buffer: &mut [Frame],
        steps: &mut Steps<L>,
    )
        requires ready { IsServerOf block.now self.old }
        requires shown { self.old.shown ≡ shown_by seen }
        requires within { WithinAsk (length buffer.old) seen }
        requires few { length buffer.old < 2 ^ 32 }
        ensures ready { IsServerOf block.now self.new }
        ensures list { HasDone self.old (events_behind_look (length buffer.old) was_shut seen) (take (count_seen seen) buffer.new) self.new }
        ensures steps { steps.new ≤ steps.old + length buffer.old + 2 }
    {
        match seen {
            Seen::Frames { count } => {
                let count = count as usize;
                self.take(block, &mut buffer[..count], steps);
                self.tally_some(block, buffer.len() - count, steps);
            }
            Seen::Empty => self.tally_some(block, buffer.len(), steps),
            Seen::Shut { .. } if !was_shut => self.set_flags(block, INVALID, steps),
            _ => {}
        }
    }

    /// What a mixer does with one slot of the mask: the gains are read, and the block is looked at for as many frames as the buffer has room for. Frames that are shown are taken to the front of the buffer, those missing are tallied, and if the look shuts this server INVALID is set in the block.
    ///
    /// `place` is how many frames stand before these where they will be kept. A step for each frame of the buffer, and at most seven more.
    pub fn play<L: Ledger>(
        &mut self,
        block: &Block,
        place: usize,
        buffer: &mut [Frame],
        steps: &mut Steps<L>,
    ) -> SlotEntry
        requires ready { IsServerOf block.now self.old }
        requires buffer { (1 ≤ length buffer.old) × (length buffer.old < 2 ^ 32) }
        ensures ready { IsServerOf block.now self.new }
        ensures plays { Plays (length buffer.old) place self.old buffer.new result self.new }
        ensures steps { steps.new ≤ steps.old + length buffer.old + 7 }
    {
        let was_shut = self.shut().is_some();
        let gains = self.gains(block, steps);
        let look = self.look(block, buffer.len() as u32, steps);
        self.follow(block, was_shut, look.seen, buffer, steps);
        SlotEntry {
            gains,
            flush: look.flush,
            rear: look.rear,
            seen: look.seen,
            first: place_of(place, look.seen),
        }
    }
}
