//! The rounds of all parties at once: their turns, and then the meetings of all.
ghost use Rattle.std.specs.Prelude.{◌≡◌, ◌<◌, ◌≤◌, ◌^◌, ℕ, List, Option, length, All};
ghost use Rattle.std.specs.List.{AllZip};
ghost use Rattle.std.specs.Thread.{IsSync};
ghost use Rattle.af_base.specs.Log.{slots};
ghost use Rattle.af_model.specs.Journals.{RoundNoted};
ghost use Rattle.af_side_by_side.specs.Logging.{AreEnds, HasMetLog, LogsPlay};
ghost use Rattle.af_session.specs.Met.{Met};
ghost use Rattle.af_session.specs.Shown.{HasPlaces};
ghost use Rattle.af_session.specs.Rooms.{CarriesOn, HasRoundRoom, IsReadyOn, KeepsSound, given_of};
ghost use Rattle.af_side_by_side.specs.TurnsInRoom.{CanPlayMixers, LogsRound, MixersPlayed, PlaysRound, with_turns};
ghost use Rattle.af_side_by_side.specs.SideBySide.{CanTurn, HasTurned, all_noted};
ghost use Rattle.af_tally.specs.Summaries.{Shown};
ghost use Rattle.af_tally.specs.Tallies.{IsTally, Keeps};

use crate::logging::Logging;
use crate::side_by_side::{Start, clients_turns, have_ended, mixers_turns};
use af_base::Steps;
use af_fast::FastMixer;
use af_io::Gate;
use af_normal::NormalMixer;
use af_party::Party;
use af_session::{Parties, Rig, Room};
use af_tally::Tally;
use std::marker::Brand;
use std::sync::ledger::{Blank, Ledger};
use std::thread::{Threads, join_mut};

// How many of these threads the mixers get, and the party that reads the log if one is kept: half of them, but not more than there are such parties.
fn threads_of_mixers(threads: u32, logging: &Logging) -> u32
    ensures { result ≤ threads }
{
    let parties = if logging.log.is_some() { 3 } else { 2 };
    let half = threads / 2;
    if half < parties { half } else { parties }
}

// The turns of these parties at the same time, on at most as many threads as there may be: the clients, then the normal mixer, then the fast mixer, and the party that reads the log if one is kept. Clients that have all ended need no thread. The bytes of what the fast mixer mixed are appended to those in the room. It takes no memory.
fn turns_at_once<R: Threads + Sync, G: Gate>(
    start: &Start<'_, '_, R, G>,
    clients: &mut [Party],
    normal: &mut NormalMixer,
    fast: &mut FastMixer,
    rig: &Rig<'_, '_, '_>,
    room: &mut Room,
    logging: &mut Logging,
)
    requires clients { All (CanTurn rig.now.links (given_of rig.now)) clients.old }
    requires few { length rig.now.tracks.now < 2 ^ 31 }
    requires mixers { CanPlayMixers rig.now.links normal.old fast.old room.old logging.old }
    ensures clients { AllZip (HasTurned rig.now.links (given_of rig.now)) clients.old clients.new }
    ensures mixers { MixersPlayed rig.now.links normal.old normal.new fast.old fast.new room.old room.new logging.old logging.new }
{
    if start.threads < 2 || have_ended(clients) {
        clients_turns(start, clients, rig);
        mixers_turns(start, normal, fast, rig, room, logging);
        return;
    }
    let &Start { rt, gate, threads } = start;
    let few = threads_of_mixers(threads, logging);
    let others = threads - few;
    join_mut(
        rt,
        &mut ||
            requires { IsSync R.row × All (CanTurn rig.now.links (given_of rig.now)) clients.now }
            ensures { AllZip (HasTurned rig.entry.now.links (given_of rig.entry.now)) clients.entry.now clients.exit.now }
        { clients_turns(&Start::of(rt, gate, others), clients, rig) },
        &mut ||
            requires { IsSync R.row × CanPlayMixers rig.now.links normal.now fast.now room.now logging.now × (length rig.now.tracks.now < 2 ^ 31) }
            ensures { MixersPlayed rig.entry.now.links normal.entry.now normal.exit.now fast.entry.now fast.exit.now
                room.entry.now room.exit.now logging.entry.now logging.exit.now }
        { mixers_turns(&Start::of(rt, gate, few), normal, fast, rig, room, logging) },
    );
}

// The turns of all parties at the same time.
fn all_turns<R: Threads + Sync, G: Gate>(
    parties: &mut Parties,
    rt: &R,
    rig: &Rig<'_, '_, '_>,
    room: &mut Room,
    logging: &mut Logging,
    gate: &G,
)
    requires clients { All (CanTurn rig.now.links (given_of rig.now)) parties.old.clients }
    requires few { length rig.now.tracks.now < 2 ^ 31 }
    requires mixers { CanPlayMixers rig.now.links parties.old.normal parties.old.fast room.old logging.old }
    ensures clients { AllZip (HasTurned rig.now.links (given_of rig.now)) parties.old.clients parties.new.clients }
    ensures mixers { MixersPlayed rig.now.links parties.old.normal parties.new.normal parties.old.fast parties.new.fast
        room.old room.new logging.old logging.new }
{
    let Parties {
        clients,
        normal,
        fast,
    } = parties;
    let start = Start::of(rt, gate, gate.threads());
    turns_at_once(&start, clients, normal, fast, rig, room, logging);
}

// Notes the calls of each client, and the turn of the normal mixer if the mixer hadn't ended.
fn note_turns(parties: &Parties, had_ended: bool, tally: &mut Tally)
    requires places { (n : ℕ) × (entries : ℕ) × (n < 100000) × (entries ≤ 100000) × HasPlaces n (length parties.now.clients) entries tally.old }
    requires takes { length parties.now.normal.entry.mixes.items ≤ slots }
    ensures tally { (run : Shown) → IsTally run tally.old → IsTally (with_turns had_ended parties.now run) tally.new }
    ensures keeps { Keeps slots 0 tally.old tally.new }
{
    for i in 0..parties.clients.len() {
        tally.note_calls(i, parties.clients[i].calls.as_slice());
    }
    if !had_ended {
        tally.note_turn(parties.normal.last());
    }
}

// The meetings of all, whose steps are counted by themselves.
fn meet_in<L: Ledger>(
    parties: &mut Parties,
    blank: Blank,
    rig: &Rig<'_, '_, '_>,
    logging: &mut Logging,
)
    requires ledger { (blank.name ≡ L.name) × (blank.parts ≡ L.parts) × (0 < blank.parts) }
    requires ready { (n : ℕ) × IsReadyOn rig.now n parties.old }
    requires log { AreEnds logging.old }
    ensures ready { (n : ℕ) → IsReadyOn rig.now n parties.old → IsReadyOn rig.now n parties.new }
    ensures met { Met parties.old parties.new }
    ensures log { HasMetLog logging.old logging.new }
{
    let mut steps = Steps::<L>::start(blank);
    parties.meet_all(rig, &mut steps);
    logging.meet(&mut steps);
}

/// A round of all parties: each that hasn't ended makes one turn, at the same time as the others on at most as many threads as the gate says, and then all meet. Once the normal mixer has ended every client has. The bytes of what the fast mixer mixed are appended to those in the room, which has room for those of sixteen cycles. If a log is kept a party of its own reads it in each round, and its two ends meet with the others. It takes no memory.
///
/// Each turn is a legal one by what its party saw, and after the meetings the lists of each two that met have a history. If the bytes that went out before, and those in the room behind them, were the sound of the fast mixer's log, they are so again.
pub fn round_of_all<R: Threads + Sync, G: Gate>(
    parties: &mut Parties,
    rt: &R,
    rig: &Rig<'_, '_, '_>,
    room: &mut Room,
    logging: &mut Logging,
    gate: &G,
)
    requires ready { (n : ℕ) × (n < 131072) × IsReadyOn rig.now n parties.old }
    requires room { HasRoundRoom parties.old room.old }
    requires log { (kept : Option ℕ) × (rounds : List RoundNoted) × LogsPlay kept parties.old.fast rounds logging.old }
    ensures carried { CarriesOn rig.now (all_noted parties.old parties.new) parties.old parties.new room.old room.new }
    ensures round { PlaysRound (given_of rig.now) parties.old parties.new room.old room.new }
    ensures sound { KeepsSound parties.old.fast parties.new.fast room.old.bytes.items room.new.bytes.items }
    ensures log { LogsRound parties.old parties.new logging.old logging.new }
{
    let had_ended = parties.normal.has_ended();
    all_turns(parties, rt, rig, room, logging, gate);
    note_turns(parties, had_ended, &mut room.tally);
    meet_in::<Brand>(parties, Blank::new(1), rig, logging);
    parties.end_clients();
}
