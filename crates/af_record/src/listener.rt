//! Reading frames.
ghost use Rattle.std.specs.Prelude.{◌≡◌, ℕ, ◌+◌, ◌^◌, ◌++◌, ◌<◌, ◌≤◌, List, [], ◌∷◌, map, take, drop, length};
ghost use Rattle.af_base.specs.Log.{count_seen};
ghost use Rattle.af_base.specs.Sample.{packed_word};
ghost use Rattle.af_model.specs.ServerCalls.{shown_by};
ghost use Rattle.af_server.specs.Looks.{WithinAsk};
ghost use Rattle.af_server.specs.Order.{IsServerOf};
ghost use Rattle.af_record.specs.Ends.{listener_made, take_steps, takes, HasRead, ReadBy};

use crate::ends::Listener;
use af_base::{Frame, Seen, Steps};
use af_cblk::Block;
use af_server::Server;
use std::sync::ledger::Ledger;

// Takes the frames that a look showed, if there are some, to the front of `into`. It answers how many.
fn take_shown<L: Ledger>(
    block: &Block,
    server: &mut Server,
    seen: Seen,
    into: &mut [Frame],
    steps: &mut Steps<L>,
) -> u32
    requires ready { IsServerOf block.now server.old }
    requires shown { server.old.shown ≡ shown_by seen }
    requires within { WithinAsk (length into.old) seen }
    ensures ready { IsServerOf block.now server.new }
    ensures count { (result ≡ count_seen seen) × (result ≤ length into.old) }
    ensures events { server.new.pass.part.events ≡ server.old.pass.part.events ++ takes result }
    ensures frames { server.new.pass.part.frames ≡ server.old.pass.part.frames ++ map packed_word (take result into.new) }
    ensures rest { drop result into.new ≡ drop result into.old }
    ensures hand { server.new.pass.has_hand ≡ server.old.pass.has_hand }
    ensures steps { steps.new ≡ steps.old + take_steps seen }
{
    match seen {
        Seen::Frames { count } => {
            server.take(block, &mut into[..count as usize], steps);
            count
        }
        _ => 0,
    }
}

impl Listener {
    /// Reads as many frames as the rear that it sees shows, and no more than `into` has places, 1 to 1024. They stand at the front of `into`, and the rest of it stays.
    ///
    /// None are read if the look sees a flush, or a rear and a front that don't fit the block; after the latter it looks no more. A meeting shows that neither ever came. A step for each event, of which there are at most four, and for each frame.
    pub fn read<L: Ledger>(
        &mut self,
        block: &Block,
        into: &mut [Frame],
        steps: &mut Steps<L>,
    ) -> u32
        requires made { listener_made self.old ≡ block.now }
        requires places { (1 ≤ length into.old) × (length into.old ≤ 1024) }
        requires few { self.old.total < 2 ^ 62 }
        ensures made { listener_made self.new ≡ block.now }
        ensures count { HasRead self.old.pass.part (length into.old) result self.new.pass.part }
        ensures few { result ≤ length into.old }
        ensures frames { self.new.pass.part.frames ≡ self.old.pass.part.frames ++ map packed_word (take result into.new) }
        ensures rest { drop result into.new ≡ drop result into.old }
        ensures total { self.new.total ≡ self.old.total + result }
        ensures history { (reads : List (List ℕ)) → ReadBy reads self.old → ReadBy (reads ++ map packed_word (take result into.new) ∷ []) self.new }
        ensures steps { steps.new ≤ steps.old + result + 4 }
    {
        let look = self.server.look(block, into.len() as u32, steps);
        let count = take_shown(block, &mut self.server, look.seen, into, steps);
        self.total += u64::from(count);
        count
    }

    /// How many frames were read.
    pub fn total(&self) -> u64
        ensures value { result ≡ self.now.total }
        ensures frames { result ≡ length self.now.pass.part.frames }
    {
        self.total
    }
}
