//! The rounds of a render: one turn of the script in each.
ghost use Rattle.std.specs.Prelude.{◌≡◌, ◌<◌, ℕ, List, length};
ghost use Rattle.af_model.specs.Journals.{RoundNoted};
ghost use Rattle.af_script.specs.Form.{IsTurn};
ghost use Rattle.af_rendering.specs.SoFar.{HasPlayedTo, TurnPlayed};
ghost use Rattle.af_rendering.specs.Stages.{HasRoomToWait};
ghost use Rattle.af_session.specs.Rooms.{CarriesOn, HasAdded, HasRoundRoom, IsReadyOn, given_of};
ghost use Rattle.af_session.specs.Rounds.{IsRound, round_told};

use af_base::Steps;
use af_script::{Script, TurnSpec};
use af_session::{Parties, Rig, Room};
use std::marker::Brand;
use std::sync::ledger::{Blank, Ledger};

// A round, whose steps are counted apart from those of other rounds.
fn round_in<L: Ledger>(
    blank: Blank,
    parties: &mut Parties,
    rig: &Rig<'_, '_, '_>,
    turn: TurnSpec,
    room: &mut Room,
)
    requires ledger { (blank.name ≡ L.name) × (blank.parts ≡ L.parts) × (0 < blank.parts) }
    requires turn { IsTurn (length parties.old.clients) turn }
    requires room { HasRoundRoom parties.old room.old }
    requires ready { (n : ℕ) × (n < 100000) × IsReadyOn rig.now n parties.old }
    ensures carried { CarriesOn rig.now (round_told turn parties.old parties.new) parties.old parties.new room.old room.new }
    ensures round { (r : RoundNoted) × (added : List ℕ) × HasAdded room.old added room.new × IsRound (given_of rig.now) turn parties.old r added parties.new }
{
    let mut steps = Steps::<L>::start(blank);
    parties.round(rig, turn, room, &mut steps);
}

/// Plays the next turn of a script, as a round after which all meet. What is kept is how many turns were played; their rounds stand nowhere.
pub(crate) fn play_turn(
    script: &Script,
    rig: &Rig<'_, '_, '_>,
    played: &mut usize,
    parties: &mut Parties,
    room: &mut Room,
)
    requires far { HasPlayedTo script.now rig.now played.old parties.old room.old.tally }
    requires more { played.old < length script.now.turns }
    requires room { HasRoomToWait parties.old room.old }
    ensures { TurnPlayed script.now rig.now played.old played.new parties.old parties.new room.old room.new }
{
    let turn = script.turns()[*played];
    round_in::<Brand>(Blank::new(1), parties, rig, turn, room);
    parties.know_round(turn);
    *played += 1;
}
