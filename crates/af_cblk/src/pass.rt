//! What the parties step with.
ghost use Rattle.std.specs.Prelude.{◌≡◌, ◌+◌};

use crate::block::Block;
use crate::view::View;
use af_base::Steps;
use atomic_table::Seat;
use std::marker::Model;
use std::sync::ledger::Ledger;

/// The client's right to step on one block: there is one for each block, and it can't be copied.
///
/// Contracts see the list of its events there, oldest first, the words of the frames that it released, and what it last saw.
#[derive(Drop)]
pub struct ClientPass {
    pub(crate) seat: Seat<(), View>,
    // The word of the client's position.
    pub(crate) rear: u32,
    // How many flushes the client asked for.
    pub(crate) flushes: u32,
    // The word of the client's position at its last flush, and 0 before any.
    pub(crate) flushed: u32,
}

impl Model for ClientPass {
    ghost use Rattle.std.specs.Prelude.{◌≡◌, true, []};
    ghost use Rattle.af_model.specs.Point.{wrapped};
    ghost use Rattle.af_model.specs.History.{flushes_of};
    ghost use Rattle.af_cblk.specs.Parts.{released};
    ghost use Rattle.af_cblk.specs.Sides.{ClientSide};

    ghost Value = { ClientSide };

    ghost view = { λ p. record { id = p.seat.table_id; part = p.seat.me.0.client } };

    ghost invariant = { λ p. (p.seat.me.0.is_client ≡ true) × (p.seat.me.1 ≡ []) × (p.rear ≡ wrapped (released p.seat.me.0.client)) × (p.flushes ≡ flushes_of p.seat.me.0.client.events) × (p.flushed ≡ wrapped p.seat.me.0.client.flush_at) };
}

/// The server's right to step on one block: there is one for each block, and it can't be copied.
///
/// Contracts see the list of its events there, oldest first, the words of the frames that it took, and what it last saw. The hand is with it until it is split off.
#[derive(Drop)]
pub struct ServerPass {
    pub(crate) seat: Seat<(), View>,
}

impl Model for ServerPass {
    ghost use Rattle.std.specs.Prelude.{◌≡◌, true, []};
    ghost use Rattle.af_cblk.specs.Rule.{new_hand};
    ghost use Rattle.af_cblk.specs.Sides.{ServerSide};

    ghost Value = { ServerSide };

    ghost view = { λ p. record { id = p.seat.table_id; part = p.seat.me.0.server; has_hand = p.seat.me.0.is_hand } };

    ghost invariant = { λ p. (p.seat.me.0.is_server ≡ true) × (p.seat.me.1 ≡ []) × (p.seat.me.0.is_hand ≡ true → (p.seat.me.0.hand ≡ new_hand p.seat.me.0.server.shape) × (p.seat.me.0.known ≡ [])) };
}

/// The normal mixer's right to set DISABLED on one block, beside the server's pass. Contracts see the list of its events there, and what the server had done at its last meeting with the client.
#[derive(Drop)]
pub struct FlagHand {
    pub(crate) seat: Seat<(), View>,
}

impl Model for FlagHand {
    ghost use Rattle.std.specs.Prelude.{◌≡◌, true, []};
    ghost use Rattle.af_cblk.specs.Sides.{HandSide};

    ghost Value = { HandSide };

    ghost view = { λ p. record { id = p.seat.table_id; part = p.seat.me.0.hand; known = p.seat.me.0.known } };

    ghost invariant = { λ p. (p.seat.me.0.is_hand ≡ true) × (p.seat.me.1 ≡ []) };
}

// Only the two kinds of pass belong to this trait.
mod sealed {
    pub trait Sealed {}
}

impl sealed::Sealed for ClientPass {}

impl sealed::Sealed for ServerPass {}

/// The two kinds of pass, the client's and the server's, either of which loads front. No other type can be one.
pub trait BlockPass: sealed::Sealed {
    ghost use Rattle.af_cblk.specs.Sides.{Made};
    ghost use Rattle.std.specs.Prelude.{ℕ};

    // The block that the pass was made with.
    ghost made: { Self → Made };

    // Of the pass before a load, the front that was loaded, and the pass after it.
    ghost saw: { Self → ℕ → Self → Type 0 };

    /// Loads front. `Block::load_front` calls it.
    fn load_front_of<L: Ledger>(&mut self, block: &Block, steps: &mut Steps<L>) -> u32
        requires { made self.old ≡ block.now }
        ensures made { made self.new ≡ block.now }
        ensures saw { saw self.old result self.new }
        ensures steps { steps.new ≡ steps.old + 1 };
}

impl BlockPass for ClientPass {
    ghost use Rattle.af_cblk.specs.Sides.{client_made, ClientSawFront};

    ghost made = { client_made };

    ghost saw = { ClientSawFront };

    fn load_front_of<L: Ledger>(&mut self, block: &Block, steps: &mut Steps<L>) -> u32 {
        block.client_front(self, steps)
    }
}

impl BlockPass for ServerPass {
    ghost use Rattle.af_cblk.specs.Sides.{server_made, ServerSawFront};

    ghost made = { server_made };

    ghost saw = { ServerSawFront };

    fn load_front_of<L: Ledger>(&mut self, block: &Block, steps: &mut Steps<L>) -> u32 {
        block.server_front(self, steps)
    }
}
