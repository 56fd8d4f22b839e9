//! The proxy, how it is made, and what it keeps.
ghost use Rattle.std.specs.Prelude.{[], ◌≡◌, ◌+◌, ◌≤◌, true, false, None};
ghost use Rattle.std.specs.Borrow.{Lends, sem};
ghost use Rattle.af_cblk.specs.Rule.{new_server, new_hand};
ghost use Rattle.af_cblk.specs.Sides.{server_made, hand_made};
ghost use Rattle.af_cblk.specs.contracts.pass.ServerPass.{the_row as pass_row};
ghost use Rattle.af_server.specs.Order.{IsServerOf, counted};
ghost use Rattle.af_server.specs.contracts.server.Server.{the_row};

use af_base::Steps;
use af_cblk::{Block, FlagHand, ServerPass};
use std::marker::Model;
use std::sync::ledger::Ledger;

/// Where the consumed count of a server ends.
pub(crate) const MOST_CONSUMED: u64 = 0x7fff_ffff_ffff_ffff;

/// The server's side of one control block: AOSP's `ServerProxy`.
///
/// It distrusts every index that it reads: if front and rear once lie further apart than the block has frames, it is shut for good.
///
/// Contracts see its pass, with the list of all events so far, and the kept values. A proxy is in order if these are the ones that the list gives. `with` makes it so, and each call and each meeting keeps it so.
#[derive(Drop)]
pub struct Server {
    pub(crate) pass: ServerPass,
    // The flush word last seen.
    pub(crate) flush: u32,
    // How many flushes there were at the last one that was noticed.
    pub(crate) flushes: u32,
    // The front last seen.
    pub(crate) front: u32,
    // How many frames the last call showed, if it was a look that showed some.
    pub(crate) shown: Option<u32>,
    pub(crate) consumed: u64,
    pub(crate) shut: Option<(u32, u32)>,
}

impl Model for Server {
    ghost use Rattle.af_server.specs.Order.{ServerState};

    ghost Value = { ServerState };

    ghost view = { λ s. record { pass = s.pass; flush = s.flush; flushes = s.flushes; front = s.front; shown = s.shown; consumed = s.consumed; shut = s.shut } };
}

// A count of consumed frames, with some more.
pub(crate) fn raised(consumed: u64, count: u32) -> u64
    requires { consumed ≤ 9223372036854775807 }
    ensures { result ≡ counted (consumed + count) }
{
    MOST_CONSUMED.min(consumed + u64::from(count))
}

impl Server {
    /// The proxy of a pass on which nothing was done, on the block that the pass was made with.
    pub fn with(pass: ServerPass, block: &Block) -> Server
        requires made { server_made pass ≡ block.now }
        requires new { pass.part ≡ new_server block.now.shape }
        ensures pass { result.pass ≡ pass }
        ensures kept { (result.flush ≡ 0) × (result.flushes ≡ 0) × (result.consumed ≡ 0) × (result.shown ≡ None) × (result.shut ≡ None) }
        ensures ready { IsServerOf block.now result }
    {
        let front = block.base();
        Server {
            pass,
            flush: 0,
            flushes: 0,
            front,
            shown: None,
            consumed: 0,
            shut: None,
        }
    }

    /// How many frames this server took and discarded, up to 2^63 - 1.
    pub fn consumed(&self) -> u64
        ensures { result ≡ self.now.consumed }
    {
        self.consumed
    }

    /// How many flushes the client had asked for, by the flush word that the last look noticed, and 0 before any.
    pub fn flush_seen(&self) -> u32
        ensures { result ≡ self.now.flushes }
    {
        self.flushes
    }

    /// The front and rear that shut this proxy, if it was shut.
    pub fn shut(&self) -> Option<(u32, u32)>
        ensures { result ≡ self.now.shut }
    {
        self.shut
    }

    /// Splits the hand off this server's pass. It can be done once. One step.
    pub fn hand<L: Ledger>(&mut self, block: &Block, steps: &mut Steps<L>) -> FlagHand
        requires ready { IsServerOf block.now self.old }
        requires first { self.old.pass.has_hand ≡ true }
        ensures ready { IsServerOf block.now self.new }
        ensures split { self.new ≡ (record self.old { pass = record self.old.pass { has_hand = false }; shown = None }) }
        ensures hand { (hand_made result ≡ block.now) × (result.part ≡ new_hand block.now.shape) × (result.known ≡ []) }
        ensures steps { steps.new ≡ steps.old + 1 }
    {
        self.shown = None;
        block.hand(&mut self.pass, steps)
    }

    /// Lends the pass to a meeting.
    pub fn pass(&mut self) -> &mut ServerPass
        ensures value { result.now ≡ self.entry.now.pass }
        ensures* lends { sem 𝓛 (Lends the_row pass_row self.entry result (λ p. record { pass = p; flush = self.entry.now.flush; flushes = self.entry.now.flushes; front = self.entry.now.front; shown = self.entry.now.shown; consumed = self.entry.now.consumed; shut = self.entry.now.shut })) }
    {
        &mut self.pass
    }
}
