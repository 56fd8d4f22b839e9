//! The rounds of an offline session: the turn of one party, and then the meetings of all.
ghost use Rattle.std.specs.Prelude.{◌≡◌, ◌<◌, ℕ, List, [], length, map};
ghost use Rattle.af_model.specs.Journals.{RoundNoted};
ghost use Rattle.af_script.specs.Form.{IsTurn};
ghost use Rattle.af_script.specs.declared.op.TurnSpec.TheVariants as spec;
ghost use Rattle.af_session.specs.Met.{Met};
ghost use Rattle.af_session.specs.Rooms.{CarriesOn, HasAdded, HasPlacesAt, HasRoom, HasRoundRoom, IsReadyOn, KeepsRoom, KeepsSizes, StaysInPlace, StaysReadyOn, given_of};
ghost use Rattle.af_session.specs.Rounds.{IsRound, Turns, end_party, round_told, with_ends};
ghost use Rattle.af_session.specs.Shown.{FollowsRound};

use crate::fast_turns::fast_turn;
use crate::meetings::meet;
use crate::parties::Parties;
use crate::rig::Rig;
use crate::room::Room;
use af_base::Steps;
use af_party::Party;
use af_script::TurnSpec;
use af_tally::Tally;
use std::sync::ledger::Ledger;

// Ends each of these clients.
fn end_all(clients: &mut [Party])
    ensures { clients.new ≡ map end_party clients.old }
{
    for client in clients.iter_mut() {
        client.end();
    }
}

impl Parties {
    // The turn of a track's client, by its ops and its file.
    fn play_client<L: Ledger>(
        &mut self,
        rig: &Rig<'_, '_, '_>,
        track: u32,
        tally: &mut Tally,
        steps: &mut Steps<L>,
    )
        requires track { track < length self.old.clients }
        requires ready { (n : ℕ) × (n < 100000) × IsReadyOn rig.now n self.old }
        requires places { (n : ℕ) × (n < 100000) × HasPlacesAt n self.old tally.old }
        ensures ready { StaysReadyOn rig.now self.old self.new }
        ensures same { self.new.fast ≡ self.old.fast }
        ensures turns { (r : RoundNoted) × Turns (given_of rig.now) (spec.Client track) self.old r [] self.new }
        ensures tally { FollowsRound (round_told (spec.Client track) self.old self.new) self.old.fast self.new.fast tally.old tally.new }
        ensures places { StaysInPlace self.old self.new tally.old tally.new }
    {
        let i = track as usize;
        let Rig { tracks, files, .. } = *rig;
        let ops = tracks[i].ops.as_slice();
        let file = files[i].frames();
        let client = &mut self.clients[i];
        client.turn(&rig.links, ops, file, steps);
        tally.note_calls(i, client.calls.as_slice());
    }

    // The turn of the normal mixer: nothing if it has ended.
    fn play_normal<L: Ledger>(
        &mut self,
        rig: &Rig<'_, '_, '_>,
        tally: &mut Tally,
        steps: &mut Steps<L>,
    )
        requires ready { (n : ℕ) × (n < 100000) × IsReadyOn rig.now n self.old }
        requires places { (n : ℕ) × (n < 100000) × HasPlacesAt n self.old tally.old }
        ensures ready { StaysReadyOn rig.now self.old self.new }
        ensures same { self.new.fast ≡ self.old.fast }
        ensures turns { (r : RoundNoted) × Turns (given_of rig.now) spec.Normal self.old r [] self.new }
        ensures tally { FollowsRound (round_told spec.Normal self.old self.new) self.old.fast self.new.fast tally.old tally.new }
        ensures places { StaysInPlace self.old self.new tally.old tally.new }
    {
        if !self.normal.has_ended() {
            self.normal.turn(&rig.links, steps);
            tally.note_turn(self.normal.last());
        }
    }

    // The turn of the fast mixer, up to so many cycles: nothing if it has ended.
    fn play_fast<L: Ledger>(
        &mut self,
        rig: &Rig<'_, '_, '_>,
        count: u32,
        room: &mut Room,
        steps: &mut Steps<L>,
    )
        requires ready { (n : ℕ) × (n < 100000) × IsReadyOn rig.now n self.old }
        requires room { HasRoom count self.old.fast room.old }
        ensures ready { StaysReadyOn rig.now self.old self.new }
        ensures sizes { KeepsSizes self.old.fast self.new.fast }
        ensures turns { (r : RoundNoted) × (added : List ℕ) × HasAdded room.old added room.new
            × Turns (given_of rig.now) (spec.Fast count) self.old r added self.new }
        ensures kept { KeepsRoom room.old room.new }
        ensures tally { FollowsRound (round_told (spec.Fast count) self.old self.new) self.old.fast self.new.fast room.old.tally room.new.tally }
        ensures places { StaysInPlace self.old self.new room.old.tally room.new.tally }
    {
        if self.fast.has_exited() {
            return;
        }
        let Parties {
            clients,
            normal,
            fast,
        } = self;
        fast_turn(clients, normal, fast, &rig.links, count, room, steps);
    }

    /// All parties meet.
    pub fn meet_all<L: Ledger>(&mut self, rig: &Rig<'_, '_, '_>, steps: &mut Steps<L>)
        requires ready { (n : ℕ) × IsReadyOn rig.now n self.old }
        ensures ready { (n : ℕ) → IsReadyOn rig.now n self.old → IsReadyOn rig.now n self.new }
        ensures met { Met self.old self.new }
    {
        let Parties {
            clients,
            normal,
            fast,
        } = self;
        meet(clients, normal, fast, &rig.links, steps);
    }

    /// Once the normal mixer has ended every client has.
    pub fn end_clients(&mut self)
        ensures { self.new ≡ with_ends self.old }
    {
        if self.normal.has_ended() {
            end_all(&mut self.clients);
        }
    }

    // The turn that the script names.
    fn play<L: Ledger>(
        &mut self,
        rig: &Rig<'_, '_, '_>,
        turn: TurnSpec,
        room: &mut Room,
        steps: &mut Steps<L>,
    )
        requires turn { IsTurn (length self.old.clients) turn }
        requires ready { (n : ℕ) × (n < 100000) × IsReadyOn rig.now n self.old }
        requires room { HasRoundRoom self.old room.old }
        ensures ready { StaysReadyOn rig.now self.old self.new }
        ensures sizes { KeepsSizes self.old.fast self.new.fast }
        ensures turns { (r : RoundNoted) × (added : List ℕ) × HasAdded room.old added room.new × Turns (given_of rig.now) turn self.old r added self.new }
        ensures kept { KeepsRoom room.old room.new }
        ensures tally { FollowsRound (round_told turn self.old self.new) self.old.fast self.new.fast room.old.tally room.new.tally }
        ensures places { StaysInPlace self.old self.new room.old.tally room.new.tally }
    {
        match turn {
            TurnSpec::Client { track } => self.play_client(rig, track, &mut room.tally, steps),
            TurnSpec::Normal => self.play_normal(rig, &mut room.tally, steps),
            TurnSpec::Fast { cycles } => self.play_fast(rig, cycles, room, steps),
        }
    }

    /// A round of an offline session: the turn of the party that the script names, and then the meetings of all. Once the normal mixer has ended every client has. The bytes of what the fast mixer mixed are appended to those in the room, which has room for those of sixteen cycles. The tally notes what the turn shows: nothing if its mixer had ended. It takes no memory.
    ///
    /// The turn is a legal one by what the party saw.
    pub fn round<L: Ledger>(
        &mut self,
        rig: &Rig<'_, '_, '_>,
        turn: TurnSpec,
        room: &mut Room,
        steps: &mut Steps<L>,
    )
        requires turn { IsTurn (length self.old.clients) turn }
        requires ready { (n : ℕ) × (n < 100000) × IsReadyOn rig.now n self.old }
        requires room { HasRoundRoom self.old room.old }
        ensures carried { CarriesOn rig.now (round_told turn self.old self.new) self.old self.new room.old room.new }
        ensures round { (r : RoundNoted) × (added : List ℕ) × HasAdded room.old added room.new
            × IsRound (given_of rig.now) turn self.old r added self.new }
    {
        self.play(rig, turn, room, steps);
        self.meet_all(rig, steps);
        self.end_clients();
    }
}
