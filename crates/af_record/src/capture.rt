//! Supplying frames.
ghost use Rattle.std.specs.Prelude.{◌≡◌, ℕ, ◌+◌, ◌*◌, ◌^◌, ◌++◌, ◌≤◌, List, [], ◌∷◌, map, take, length};
ghost use Rattle.af_base.specs.Sample.{packed_word};
ghost use Rattle.af_record.specs.Supplies.{Supply, supply_of};
ghost use Rattle.af_record.specs.Ends.{capture_made, CameBy, IsStopped, LooksFirst};

use crate::ends::Capture;
use crate::putting::put_all;
use af_base::{Frame, Steps};
use af_cblk::Block;
use std::sync::ledger::Ledger;

/// How many of a supply's frames were put, and how many were lost.
#[derive(Clone, Copy, Debug, PartialEq, Eq)]
pub struct Supplied {
    pub put: u32,
    pub lost: u32,
}

impl Capture {
    /// Supplies these frames, 1 to 1024. It writes until all are put or a write puts none. The rest is lost.
    ///
    /// Some are lost exactly if the last write was answered with Full or Dead: the last front seen showed no room, since the frames put before that look, and not taken by that front, filled the block; or the last flags seen had INVALID, which a meeting shows never came. The frames supplied are no more than 2^62 in all.
    pub fn supply<L: Ledger>(
        &mut self,
        block: &Block,
        frames: &[Frame],
        steps: &mut Steps<L>,
    ) -> Supplied
        requires made { capture_made self.old ≡ block.now }
        requires frames { (1 ≤ length frames.now) × (length frames.now ≤ 1024) }
        requires few { self.old.supplied + length frames.now ≤ 2 ^ 62 }
        ensures made { capture_made self.new ≡ block.now }
        ensures sum { result.put + result.lost ≡ length frames.now }
        ensures stopped { (1 ≤ result.lost → IsStopped self.new.pass.part) × (IsStopped self.new.pass.part → 1 ≤ result.lost) }
        ensures looked { LooksFirst self.old.pass.part.events self.new.pass.part.events }
        ensures put { self.new.pass.part.frames ≡ self.old.pass.part.frames ++ map packed_word (take result.put frames.now) }
        ensures counts { (self.new.supplied ≡ self.old.supplied + length frames.now) × (self.new.overrun ≡ self.old.overrun + result.lost) }
        ensures history { (supplies : List Supply) → CameBy supplies self.old → CameBy (supplies ++ supply_of frames.now result.put ∷ []) self.new }
        ensures steps { steps.new ≤ steps.old + 4 * length frames.now }
    {
        let put = put_all(block, &mut self.client, frames, steps);
        let lost = frames.len() - put;
        self.supplied += frames.len() as u64;
        self.lost += lost as u64;
        Supplied {
            put: put as u32,
            lost: lost as u32,
        }
    }

    /// How many frames were supplied.
    pub fn supplied(&self) -> u64
        ensures { result ≡ self.now.supplied }
    {
        self.supplied
    }

    /// How many of the frames supplied were lost.
    pub fn overrun(&self) -> u64
        ensures value { result ≡ self.now.overrun }
        ensures rest { self.now.supplied ≡ length self.now.pass.part.frames + result }
    {
        self.lost
    }
}
