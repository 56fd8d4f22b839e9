//! How the parts of the parties move between seats, and the loads by which they learn.
//!
//! What a party learns is ghost: a step on the table gives it to a seat, and a step is a load or a store of some word. So each learning is a load of FRONT that changes nothing and whose number is not used. Any word would do.
ghost use Rattle.std.specs.Prelude.{◌≡◌, ℕ, ◌+◌, true, List, [], length};
ghost use Rattle.af_base.specs.declared.event.HandEvent.{HandEvent};
ghost use Rattle.af_base.specs.declared.event.ServerEvent.{ServerEvent};
ghost use Rattle.af_model.specs.History.{is_lawful, HasHistory};
ghost use Rattle.af_cblk.specs.Parts.{hand_met};
ghost use Rattle.af_cblk.specs.Rule.{StartsWith, and_client, client_alone, without_client, and_hand, hand_alone, without_hand};
ghost use Rattle.af_cblk.specs.Plays.{Meeting, both_met};
ghost use Rattle.af_cblk.specs.Unshut.{NeitherShut};

use crate::block::Block;
use crate::plays::{ClientLearns, ClientMoves, HandMeets, HandMoves, HandRecalls, ServerLearns};
use crate::view::View;
use crate::words::FRONT;
use af_base::Steps;
use atomic_table::Seat;
use std::sync::ledger::Ledger;

impl Block {
    // Moves the client's part from one seat to another.
    pub(crate) fn bring_client<L: Ledger>(
        &self,
        from: &mut Seat<(), View>,
        to: &mut Seat<(), View>,
        steps: &mut Steps<L>,
    )
        requires from { from.old.table_id ≡ self.now.id }
        requires to { to.old.table_id ≡ self.now.id }
        requires has { from.old.me.0.is_client ≡ true }
        ensures table { to.new.table_id ≡ self.now.id }
        ensures both { to.new.me ≡ (and_client to.old.me.0 from.old.me.0, to.old.me.1) }
        ensures steps { steps.new ≡ steps.old + 2 }
    {
        let moved = self.table.shared.split_seat::<ClientMoves>(from);
        steps.tick();
        self.table.shared.join_seat::<ClientMoves>(to, moved);
        steps.tick();
    }

    // Gives the client's part a seat of its own.
    pub(crate) fn part_client<L: Ledger>(
        &self,
        from: &mut Seat<(), View>,
        steps: &mut Steps<L>,
    ) -> Seat<(), View>
        requires from { from.old.table_id ≡ self.now.id }
        requires has { from.old.me.0.is_client ≡ true }
        ensures tables { (result.table_id ≡ self.now.id) × (from.new.table_id ≡ self.now.id) }
        ensures alone { result.me ≡ (client_alone from.old.me.0, []) }
        ensures rest { from.new.me ≡ (without_client from.old.me.0, from.old.me.1) }
        ensures steps { steps.new ≡ steps.old + 1 }
    {
        let moved = self.table.shared.split_seat::<ClientMoves>(from);
        steps.tick();
        moved
    }

    // Moves the hand's part from one seat to another.
    pub(crate) fn bring_hand<L: Ledger>(
        &self,
        from: &mut Seat<(), View>,
        to: &mut Seat<(), View>,
        steps: &mut Steps<L>,
    )
        requires from { from.old.table_id ≡ self.now.id }
        requires to { to.old.table_id ≡ self.now.id }
        requires has { from.old.me.0.is_hand ≡ true }
        ensures table { to.new.table_id ≡ self.now.id }
        ensures both { to.new.me ≡ (and_hand to.old.me.0 from.old.me.0, to.old.me.1) }
        ensures steps { steps.new ≡ steps.old + 2 }
    {
        let moved = self.table.shared.split_seat::<HandMoves>(from);
        steps.tick();
        self.table.shared.join_seat::<HandMoves>(to, moved);
        steps.tick();
    }

    // Gives the hand's part a seat of its own.
    pub(crate) fn part_hand<L: Ledger>(
        &self,
        from: &mut Seat<(), View>,
        steps: &mut Steps<L>,
    ) -> Seat<(), View>
        requires from { from.old.table_id ≡ self.now.id }
        requires has { from.old.me.0.is_hand ≡ true }
        ensures tables { (result.table_id ≡ self.now.id) × (from.new.table_id ≡ self.now.id) }
        ensures alone { result.me ≡ (hand_alone from.old.me.0, []) }
        ensures rest { from.new.me ≡ (without_hand from.old.me.0, from.old.me.1) }
        ensures steps { steps.new ≡ steps.old + 1 }
    {
        let moved = self.table.shared.split_seat::<HandMoves>(from);
        steps.tick();
        moved
    }

    // The seat has the client's and the server's part: each learns what the other has done, the client first.
    pub(crate) fn learn_both<L: Ledger>(&self, seat: &mut Seat<(), View>, steps: &mut Steps<L>)
        requires table { seat.old.table_id ≡ self.now.id }
        requires client { seat.old.me.0.is_client ≡ true }
        requires server { seat.old.me.0.is_server ≡ true }
        requires shape { seat.old.me.0.client.shape ≡ self.now.shape }
        ensures table { seat.new.table_id ≡ self.now.id }
        ensures learnt { seat.new.me ≡ (both_met seat.old.me.0, seat.old.me.1) }
        ensures history { is_lawful seat.old.me.0.client.events ≡ true
            → (hand : List HandEvent) × (seat.old.me.0.is_hand ≡ true → hand ≡ seat.old.me.0.hand.events)
            × Meeting (both_met seat.old.me.0) hand }
        ensures unshut { is_lawful seat.old.me.0.client.events ≡ true → NeitherShut self.now.shape seat.old.me.0.client.events seat.old.me.0.server.events }
        ensures steps { steps.new ≡ steps.old + 2 }
    {
        self.table.shared.load::<ClientLearns>(seat, FRONT);
        steps.tick();
        self.table.shared.load::<ServerLearns>(seat, FRONT);
        steps.tick();
    }

    // The seat has the client's and the hand's part: the hand learns what the client has done, and knows what the server has.
    pub(crate) fn learn_hand<L: Ledger>(&self, seat: &mut Seat<(), View>, steps: &mut Steps<L>)
        requires table { seat.old.table_id ≡ self.now.id }
        requires client { seat.old.me.0.is_client ≡ true }
        requires hand { seat.old.me.0.is_hand ≡ true }
        requires shape { seat.old.me.0.client.shape ≡ self.now.shape }
        ensures table { seat.new.table_id ≡ self.now.id }
        ensures met { seat.new.me ≡ (record seat.old.me.0 { hand = hand_met seat.old.me.0.hand (length seat.old.me.0.client.events); known = seat.new.me.0.known }, seat.old.me.1) }
        ensures known { seat.old.me.0.is_server ≡ true → seat.new.me.0.known ≡ seat.old.me.0.server.events }
        ensures history { is_lawful seat.old.me.0.client.events ≡ true
            → (taken : List ℕ) × StartsWith seat.new.me.0.known seat.old.me.0.client.learnt
            × (seat.old.me.0.is_server ≡ true → taken ≡ seat.old.me.0.server.frames)
            × HasHistory seat.old.me.0.client.shape seat.old.me.0.client.events seat.old.me.0.client.frames seat.new.me.0.known taken seat.new.me.0.hand.events }
        ensures steps { steps.new ≡ steps.old + 1 }
    {
        self.table.shared.load::<HandMeets>(seat, FRONT);
        steps.tick();
    }

    // The seat has the server's and the hand's part: the server's list goes on from what the hand knows of it.
    pub(crate) fn compare<L: Ledger>(&self, seat: &mut Seat<(), View>, steps: &mut Steps<L>)
        requires table { seat.old.table_id ≡ self.now.id }
        requires server { seat.old.me.0.is_server ≡ true }
        requires hand { seat.old.me.0.is_hand ≡ true }
        ensures table { seat.new.table_id ≡ self.now.id }
        ensures same { seat.new.me ≡ seat.old.me }
        ensures goes_on { StartsWith seat.old.me.0.server.events seat.old.me.0.known }
        ensures steps { steps.new ≡ steps.old + 1 }
    {
        self.table.shared.load::<HandRecalls>(seat, FRONT);
        steps.tick();
    }
}
