//! The turns of all parties at once, on so many threads, if threads can be made.
ghost use Rattle.std.specs.Prelude.{◌≡◌, ◌+◌, ◌<◌, ◌^◌, length, All};
ghost use Rattle.std.specs.List.{AllZip, list_all};
ghost use Rattle.std.specs.Thread.{IsSync};
ghost use Rattle.af_side_by_side.specs.Logging.{HasAudited, IsAuditor, IsScribe};
ghost use Rattle.af_session.specs.Rooms.{CanCycle, HasRoom, given_of};
ghost use Rattle.af_side_by_side.specs.TurnsInRoom.{CanPlayFast, CanPlayMixers, FastAudited, FastLogged, MixersPlayed};
ghost use Rattle.af_side_by_side.specs.SideBySide.{CanMixOn, CanTurn, HasMixedOn, HasTurned};

use crate::alone::turn_alone;
use crate::logging::{Logging, Scribe};
use af_base::Steps;
use af_cblk::Block;
use af_fast::FastMixer;
use af_io::Gate;
use af_link::Links;
use af_normal::NormalMixer;
use af_party::Party;
use af_session::{Rig, Room};
use std::marker::Brand;
use std::sync::ledger::{Blank, Ledger};
use std::thread::{Threads, join_mut};

/// The threads of a round, the gate that each party passes, and on how many threads at most its turns go on at the same time.
#[derive(Drop)]
pub(crate) struct Start<'a, 'b, R, G> {
    pub(crate) rt: &'a R,
    pub(crate) gate: &'b G,
    pub(crate) threads: u32,
}

impl<'a, 'b, R, G> Start<'a, 'b, R, G> {
    /// These threads, this gate, and so many threads at most.
    pub(crate) fn of(rt: &'a R, gate: &'b G, threads: u32) -> Self {
        Start { rt, gate, threads }
    }
}

// A client's turn, whose steps are counted by themselves.
fn client_in<L: Ledger>(blank: Blank, client: &mut Party, rig: &Rig<'_, '_, '_>)
    requires ledger { (blank.name ≡ L.name) × (blank.parts ≡ L.parts) × (0 < blank.parts) }
    requires can { CanTurn rig.now.links (given_of rig.now) client.old }
    ensures { HasTurned rig.now.links (given_of rig.now) client.old client.new }
{
    let mut steps = Steps::<L>::start(blank);
    let track = client.track as usize;
    let ops = rig.tracks[track].ops.as_slice();
    let file = rig.files[track].frames();
    client.turn(&rig.links, ops, file, &mut steps);
}

// A client's turn. One that has ended doesn't pass the gate, and makes no calls.
fn client_turn<G: Gate>(client: &mut Party, rig: &Rig<'_, '_, '_>, gate: &G)
    requires { CanTurn rig.now.links (given_of rig.now) client.old }
    ensures { HasTurned rig.now.links (given_of rig.now) client.old client.new }
{
    if !client.has_ended() {
        gate.enter(client.track);
    }
    client_in::<Brand>(Blank::new(1), client, rig);
}

// A turn of the normal mixer, whose steps are counted by themselves.
fn normal_in<L: Ledger>(blank: Blank, normal: &mut NormalMixer, links: &Links<'_>)
    requires ledger { (blank.name ≡ L.name) × (blank.parts ≡ L.parts) × (0 < blank.parts) }
    requires can { CanMixOn links.now normal.old }
    ensures { HasMixedOn links.now normal.old normal.new }
{
    let mut steps = Steps::<L>::start(blank);
    if !normal.has_ended() {
        normal.turn(links, &mut steps);
    }
}

// A turn of the normal mixer, the party of this number.
fn normal_turn<G: Gate>(normal: &mut NormalMixer, links: &Links<'_>, party: u32, gate: &G)
    requires { CanMixOn links.now normal.old }
    ensures { HasMixedOn links.now normal.old normal.new }
{
    if !normal.has_ended() {
        gate.enter(party);
    }
    normal_in::<Brand>(Blank::new(1), normal, links);
}

// A turn of the fast mixer, the party of this number.
fn fast_turn<G: Gate>(
    fast: &mut FastMixer,
    links: &Links<'_>,
    room: &mut Room,
    log: &Option<Block>,
    scribe: &mut Scribe,
    party: u32,
    gate: &G,
)
    requires can { CanCycle links.now fast.old }
    requires room { HasRoom 16 fast.old room.old }
    requires log { IsScribe log.now (length fast.old.log.entries) scribe.old }
    ensures { FastLogged links.now fast.old fast.new room.old room.new scribe.old scribe.new }
{
    if !fast.has_exited() {
        gate.enter(party);
    }
    turn_alone(fast, links, room, log, scribe);
}

/// Whether all of these clients have ended.
pub(crate) fn have_ended(clients: &[Party]) -> bool
    ensures { result ≡ list_all (λ p. p.client.ended) clients.now }
{
    clients.iter().all(|client| client.has_ended())
}

/// The turns of some clients, one half of them at the same time as the other, if there may be two threads. Clients that have ended need none: if a half has only such clients, both halves go on one thread.
#[cycle(clients)]
pub(crate) fn clients_turns<R: Threads + Sync, G: Gate>(
    start: &Start<'_, '_, R, G>,
    clients: &mut [Party],
    rig: &Rig<'_, '_, '_>,
)
    requires { All (CanTurn rig.now.links (given_of rig.now)) clients.old }
    ensures { AllZip (HasTurned rig.now.links (given_of rig.now)) clients.old clients.new }
{
    match clients {
        [] => {}
        [client] => client_turn(client, rig, start.gate),
        _ => {
            let (front, back) = clients.split_at_mut(clients.len() / 2);
            if start.threads < 2 || have_ended(front) || have_ended(back) {
                clients_turns(start, front, rig);
                clients_turns(start, back, rig);
                return;
            }
            let &Start { rt, gate, threads } = start;
            let few = threads / 2;
            let others = threads - few;
            join_mut(
                rt,
                &mut ||
                    requires { IsSync R.row × All (CanTurn rig.now.links (given_of rig.now)) front.now }
                    ensures { AllZip (HasTurned rig.entry.now.links (given_of rig.entry.now)) front.entry.now front.exit.now }
                { clients_turns(&Start::of(rt, gate, few), front, rig) },
                &mut ||
                    requires { IsSync R.row × All (CanTurn rig.now.links (given_of rig.now)) back.now }
                    ensures { AllZip (HasTurned rig.entry.now.links (given_of rig.entry.now)) back.entry.now back.exit.now }
                { clients_turns(&Start::of(rt, gate, others), back, rig) },
            );
        }
    }
}

// The turns of the fast mixer and of the party that reads its log at the same time. The reading party has the number behind the mixer's.
fn fast_and_auditor<R: Threads + Sync, G: Gate>(
    start: &Start<'_, '_, R, G>,
    fast: &mut FastMixer,
    links: &Links<'_>,
    room: &mut Room,
    logging: &mut Logging,
    party: u32,
)
    requires can { CanPlayFast links.now fast.old room.old logging.old }
    requires party { party < 2 ^ 31 + 1 }
    ensures { FastAudited links.now fast.old fast.new room.old room.new logging.old logging.new }
{
    let Logging {
        log,
        scribe,
        auditor,
    } = logging;
    let last = party + 1;
    let &Start { rt, gate, .. } = start;
    join_mut(
        rt,
        &mut ||
            requires { CanCycle links.now fast.now × HasRoom 16 fast.now room.now × IsScribe log.now (length fast.now.log.entries) scribe.now }
            ensures { FastLogged links.entry.now fast.entry.now fast.exit.now room.entry.now room.exit.now scribe.entry.now scribe.exit.now }
        { fast_turn(fast, links, room, log, scribe, party, gate) },
        &mut ||
            requires { IsAuditor log.now auditor.now }
            ensures { HasAudited auditor.entry.now auditor.exit.now }
        { auditor.turn(log, last, gate) },
    );
}

// The turns of the fast mixer and of the party that reads its log, one after the other.
fn fast_then_auditor<G: Gate>(
    fast: &mut FastMixer,
    links: &Links<'_>,
    room: &mut Room,
    logging: &mut Logging,
    party: u32,
    gate: &G,
)
    requires can { CanPlayFast links.now fast.old room.old logging.old }
    requires party { party < 2 ^ 31 + 1 }
    ensures { FastAudited links.now fast.old fast.new room.old room.new logging.old logging.new }
{
    let Logging {
        log,
        scribe,
        auditor,
    } = logging;
    fast_turn(fast, links, room, log, scribe, party, gate);
    auditor.turn(log, party + 1, gate);
}

// The turns of the fast mixer and, if a log is kept, of the party that reads it, at the same time if there may be two threads and the mixer hasn't ended.
fn fast_and_log<R: Threads + Sync, G: Gate>(
    start: &Start<'_, '_, R, G>,
    fast: &mut FastMixer,
    links: &Links<'_>,
    room: &mut Room,
    logging: &mut Logging,
    party: u32,
)
    requires can { CanPlayFast links.now fast.old room.old logging.old }
    requires party { party < 2 ^ 31 + 1 }
    ensures { FastAudited links.now fast.old fast.new room.old room.new logging.old logging.new }
{
    if start.threads < 2 || fast.has_exited() || logging.log.is_none() {
        fast_then_auditor(fast, links, room, logging, party, start.gate);
        return;
    }
    fast_and_auditor(start, fast, links, room, logging, party);
}

/// The turns of both mixers, at the same time if there may be two threads and neither has ended. Their parties have the numbers behind those of the clients, of which each track has one.
pub(crate) fn mixers_turns<R: Threads + Sync, G: Gate>(
    start: &Start<'_, '_, R, G>,
    normal: &mut NormalMixer,
    fast: &mut FastMixer,
    rig: &Rig<'_, '_, '_>,
    room: &mut Room,
    logging: &mut Logging,
)
    requires can { CanPlayMixers rig.now.links normal.old fast.old room.old logging.old }
    requires few { length rig.now.tracks.now < 2 ^ 31 }
    ensures { MixersPlayed rig.now.links normal.old normal.new fast.old fast.new room.old room.new logging.old logging.new }
{
    let links = &rig.links;
    let party = rig.tracks.len() as u32;
    let last = party + 1;
    if start.threads < 2 || normal.has_ended() || fast.has_exited() {
        normal_turn(normal, links, party, start.gate);
        fast_and_log(start, fast, links, room, logging, last);
        return;
    }
    let &Start { rt, gate, threads } = start;
    let others = threads - 1;
    join_mut(
        rt,
        &mut ||
            requires { CanMixOn links.now normal.now }
            ensures { HasMixedOn links.entry.now normal.entry.now normal.exit.now }
        { normal_turn(normal, links, party, gate) },
        &mut ||
            requires { IsSync R.row × CanPlayFast links.now fast.now room.now logging.now × (last < 2 ^ 31 + 1) }
            ensures { FastAudited links.entry.now fast.entry.now fast.exit.now room.entry.now room.exit.now logging.entry.now logging.exit.now }
        {
            fast_and_log(
                &Start::of(rt, gate, others),
                fast,
                links,
                room,
                logging,
                last,
            )
        },
    );
}
