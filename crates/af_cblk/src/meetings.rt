//! How the hand is split off, and how the parties meet.
ghost use Rattle.std.specs.Prelude.{◌≡◌, ℕ, ◌+◌, true, false, List, [], length};
ghost use Rattle.af_base.specs.declared.event.ServerEvent.{ServerEvent};
ghost use Rattle.af_base.specs.declared.event.ServerEvent.TheVariants as server_event;
ghost use Rattle.af_base.specs.declared.event.HandEvent.{HandEvent};
ghost use Rattle.af_model.specs.History.{is_lawful, HasHistory};
ghost use Rattle.af_cblk.specs.Parts.{client_met, server_did, hand_met};
ghost use Rattle.af_cblk.specs.Rule.{StartsWith, new_hand};
ghost use Rattle.af_cblk.specs.Unshut.{NeitherShut};
ghost use Rattle.af_cblk.specs.Sides.{client_made, server_made, hand_made, ServerIs};

use crate::block::Block;
use crate::pass::{ClientPass, FlagHand, ServerPass};
use af_base::Steps;
use std::sync::ledger::Ledger;

impl Block {
    /// Splits the hand off the server's pass: from then on DISABLED is set beside the server. It appends nothing, takes one step, and can be done once for each block.
    pub fn hand<L: Ledger>(&self, pass: &mut ServerPass, steps: &mut Steps<L>) -> FlagHand
        requires made { server_made pass.old ≡ self.now }
        requires first { pass.old.has_hand ≡ true }
        ensures pass { pass.new ≡ (record pass.old { has_hand = false }) }
        ensures hand { (hand_made result ≡ self.now) × (result.part ≡ new_hand self.now.shape) × (result.known ≡ []) }
        ensures steps { steps.new ≡ steps.old + 1 }
    {
        let seat = self.part_hand(&mut pass.seat, steps);
        FlagHand { seat }
    }

    /// The client and the server learn what the other has done so far: all of it stands before their own next events. It appends Learn to each list, in five steps.
    ///
    /// If the client has not poked, these two lists have a history, with some hand's list, which is empty if the hand is with the server. If the client's list is moreover what its calls spell, neither proxy was shut.
    pub fn meet<L: Ledger>(
        &self,
        client: &mut ClientPass,
        server: &mut ServerPass,
        steps: &mut Steps<L>,
    )
        requires client { client_made client.old ≡ self.now }
        requires server { server_made server.old ≡ self.now }
        ensures made { client_made client.new ≡ self.now }
        ensures client { client.new.part ≡ client_met client.old.part server.old.part.events }
        ensures server { ServerIs (server_did server.old.part (server_event.Learn (length client.old.part.events))) server.old server.new }
        ensures history { is_lawful client.old.part.events ≡ true
            → (hand : List HandEvent) × (server.old.has_hand ≡ true → hand ≡ [])
            × HasHistory self.now.shape client.new.part.events client.new.part.frames server.new.part.events server.new.part.frames hand }
        ensures unshut { is_lawful client.old.part.events ≡ true → NeitherShut self.now.shape client.old.part.events server.old.part.events }
        ensures steps { steps.new ≡ steps.old + 5 }
    {
        self.bring_client(&mut client.seat, &mut server.seat, steps);
        self.learn_both(&mut server.seat, steps);
        client.seat = self.part_client(&mut server.seat, steps);
    }

    /// The hand learns what the client has done so far, while the server's pass is elsewhere. It appends Met to the hand's list and nothing to the client's, in four steps.
    ///
    /// From then on the hand knows the list that the server had at that moment. If the client has not poked, this list goes on from what the client had learnt, and has a history with theirs.
    pub fn meet_flag<L: Ledger>(
        &self,
        client: &mut ClientPass,
        hand: &mut FlagHand,
        steps: &mut Steps<L>,
    )
        requires client { client_made client.old ≡ self.now }
        requires hand { hand_made hand.old ≡ self.now }
        ensures client { client.new ≡ client.old }
        ensures made { hand_made hand.new ≡ self.now }
        ensures hand { hand.new.part ≡ hand_met hand.old.part (length client.old.part.events) }
        ensures history { is_lawful client.old.part.events ≡ true
            → (taken : List ℕ) × StartsWith hand.new.known client.old.part.learnt
            × HasHistory self.now.shape client.old.part.events client.old.part.frames hand.new.known taken hand.new.part.events }
        ensures steps { steps.new ≡ steps.old + 4 }
    {
        self.bring_client(&mut client.seat, &mut hand.seat, steps);
        self.learn_hand(&mut hand.seat, steps);
        client.seat = self.part_client(&mut hand.seat, steps);
    }

    /// The hand recalls what it knows of the server's list, beside the server's pass: that list goes on from there, whatever the client has poked. It appends nothing, in four steps.
    pub fn recall<L: Ledger>(
        &self,
        server: &mut ServerPass,
        hand: &mut FlagHand,
        steps: &mut Steps<L>,
    )
        requires server { server_made server.old ≡ self.now }
        requires hand { hand_made hand.old ≡ self.now }
        ensures server { server.new ≡ (record server.old { has_hand = false }) }
        ensures hand { hand.new ≡ hand.old }
        ensures goes_on { StartsWith server.old.part.events hand.old.known }
        ensures steps { steps.new ≡ steps.old + 4 }
    {
        self.bring_hand(&mut hand.seat, &mut server.seat, steps);
        self.compare(&mut server.seat, steps);
        hand.seat = self.part_hand(&mut server.seat, steps);
    }

    /// It appends what `meet` and then `meet_flag` append, in nine steps. If the client has not poked, these three lists have a history.
    pub fn meet_all<L: Ledger>(
        &self,
        client: &mut ClientPass,
        server: &mut ServerPass,
        hand: &mut FlagHand,
        steps: &mut Steps<L>,
    )
        requires client { client_made client.old ≡ self.now }
        requires server { server_made server.old ≡ self.now }
        requires hand { hand_made hand.old ≡ self.now }
        ensures made { (client_made client.new ≡ self.now) × (server_made server.new ≡ self.now) × (hand_made hand.new ≡ self.now) }
        ensures client { client.new.part ≡ client_met client.old.part server.old.part.events }
        ensures server { server.new.part ≡ server_did server.old.part (server_event.Learn (length client.old.part.events)) }
        ensures split { server.new.has_hand ≡ false }
        ensures hand { hand.new.part ≡ hand_met hand.old.part (length client.old.part.events + 1) }
        ensures known { hand.new.known ≡ server.new.part.events }
        ensures history { is_lawful client.old.part.events ≡ true
            → HasHistory self.now.shape client.new.part.events client.new.part.frames server.new.part.events server.new.part.frames hand.new.part.events }
        ensures unshut { is_lawful client.old.part.events ≡ true → NeitherShut self.now.shape client.old.part.events server.old.part.events }
        ensures steps { steps.new ≡ steps.old + 9 }
    {
        self.bring_client(&mut client.seat, &mut server.seat, steps);
        self.bring_hand(&mut hand.seat, &mut server.seat, steps);
        self.learn_both(&mut server.seat, steps);
        self.learn_hand(&mut server.seat, steps);
        hand.seat = self.part_hand(&mut server.seat, steps);
        client.seat = self.part_client(&mut server.seat, steps);
    }
}
