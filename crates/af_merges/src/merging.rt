//! Whether three lists of events have an order in which each event is legal.
ghost use Rattle.std.specs.Prelude.{◌≡◌, ◌+◌, ◌^◌, ◌≤◌, ◌↔◌, [], length, IfOk, OnOk, OnErr, IsErr, IsTrue, true, false};
ghost use Rattle.af_merges.specs.Merges.{HasLegalOrder, AreShort, IsStart, merged, with_pieces};

use crate::events::Events;
use crate::pieces::{Search, extend, has_order, new_search};
use crate::search::rises;
use af_base::{ClientEvent, HandEvent, Memory, ServerEvent};
use af_model::TrackPoint;
use std::alloc::{AllocError, Global};
use std::marker::Model;

/// Whether some merge of the three lists, each in its order, is legal from the point `from`.
///
/// Each list has at most 2^30 events, each position of `from` (`flush_at` and `drop_to` among them) is below 2^62, and `from.flushes` is below 2^31.
/// `Memory` is its only error.
pub fn merge_check(
    alloc: Global,
    client: &[ClientEvent],
    server: &[ServerEvent],
    hand: &[HandEvent],
    from: &TrackPoint,
) -> Result<bool, Memory>
    requires short { AreShort client.now server.now hand.now }
    requires from { IsStart from.now }
    ensures { IfOk result (λ yes. IsTrue yes ↔ HasLegalOrder from.now client.now server.now hand.now) }
{
    let events = Events {
        client,
        server,
        hand,
        rises: rises(hand),
    };
    match has_order(alloc, &events, from) {
        Ok(yes) => Ok(yes),
        Err(AllocError) => Err(Memory),
    }
}

/// A merge of three lists that come piece by piece.
///
/// Contracts see the point that the lists begin at, the lists of all calls so far, and whether memory ran out.
#[derive(Drop)]
pub struct Merge {
    alloc: Global,
    search: Search,
    spent: bool,
}

impl Model for Merge {
    ghost use Rattle.af_merges.specs.Merges.{Merged, IsStart, merged};
    ghost use Rattle.af_merges.specs.MergeSearch.{Knows};

    ghost Value = { Merged };

    ghost view = { λ m. merged m.search.from m.search.client.items m.search.server.items m.search.hand.items m.spent };

    ghost invariant = { λ m. IsStart m.search.from × Knows m.search };
}

impl Merge {
    /// No events yet. It takes no memory.
    ///
    /// Each position of `from` is below 2^62, and `from.flushes` is below 2^31.
    pub fn new(alloc: Global, from: &TrackPoint) -> Merge
        requires { IsStart from.now }
        ensures { result ≡ merged from.now [] [] [] false }
    {
        Merge {
            alloc,
            search: new_search(alloc, from),
            spent: false,
        }
    }

    /// Adds a piece to each list, and answers what `merge_check` answers for the lists of all calls so far.
    ///
    /// Each joined list has at most 2^30 events. After `Memory` the lists are as before the call, and each later call answers `Memory`.
    pub fn extend(
        &mut self,
        client: &[ClientEvent],
        server: &[ServerEvent],
        hand: &[HandEvent],
    ) -> Result<bool, Memory>
        requires client { length self.old.client + length client.now ≤ 2 ^ 30 }
        requires server { length self.old.server + length server.now ≤ 2 ^ 30 }
        requires hand { length self.old.hand + length hand.now ≤ 2 ^ 30 }
        ensures answer { IfOk result (λ yes. IsTrue yes ↔ HasLegalOrder self.new.from self.new.client self.new.server self.new.hand) }
        ensures joined { OnOk result (self.new ≡ with_pieces self.old client.now server.now hand.now) }
        ensures as_before { OnErr result (self.new ≡ record self.old { spent = true }) }
        ensures stays { self.old.spent ≡ true → IsErr result }
    {
        if self.spent {
            return Err(Memory);
        }
        self.spent = true;
        match extend(self.alloc, &mut self.search, client, server, hand) {
            Ok(yes) => {
                self.spent = false;
                Ok(yes)
            }
            Err(AllocError) => Err(Memory),
        }
    }
}
