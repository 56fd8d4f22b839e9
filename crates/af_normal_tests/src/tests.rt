//! What the tests of the mixer share: the world that it works in, with lists in place of a session, and the steps that a test makes in it. What the fast mixer reports is set by the test.
ghost use Rattle.std.specs.Prelude.{◌≡◌};
ghost use Rattle.af_client.specs.Order.{IsClientOf};
ghost use Rattle.af_link.specs.PipeEnds.{out_made};
ghost use Rattle.af_link.specs.Reports.{last_cycle};
ghost use Rattle.af_normal_tests.specs.Testing.{AreClients, AreOthers, IsWorld};

use crate::end_tests::stays_ended;
use crate::held_tests::{is_told, plays_slot};
use crate::meeting_tests::disables;
use crate::rows::Row;
use af_base::{Frame, Report, SLOTS, SlotReport, Steps, TurnEntry};
use af_cblk::Block;
use af_client::{Client, Sent};
use af_link::{Links, PipeOut, ReportWriter, StreamNames, no_slot};
use af_model::{Poll, carries_item};
use af_normal::{NormalMixer, Turn};
use af_server::Server;
use af_stateq::Observer;
use std::sync::ledger::Ledger;

/// The ends of the other mixer, the report that it stored last, and the clients.
#[derive(Drop)]
pub(crate) struct Others {
    pub observer: Observer<Server, StreamNames>,
    pub ends: (ReportWriter, PipeOut),
    pub report: Report,
    pub streams: Vec<Client>,
    pub commands: Vec<Client>,
}

/// What a test moves.
#[derive(Drop)]
pub(crate) struct World {
    pub mixer: NormalMixer,
    pub others: Others,
}

/// Silence.
pub(crate) const NO_FRAME: Frame = Frame { left: 0, right: 0 };

// The first frames that a client writes.
const WRITTEN: [Frame; 8] = [
    Frame { left: 1, right: 1 },
    Frame { left: 2, right: 2 },
    Frame { left: 3, right: 3 },
    Frame { left: 4, right: 4 },
    Frame { left: 5, right: 5 },
    Frame { left: 6, right: 6 },
    Frame { left: 7, right: 7 },
    Frame { left: 8, right: 8 },
];

/// Whether frames have these samples on either side.
pub(crate) fn are_both(frames: &[Frame; 4], samples: &[i16; 4]) -> bool {
    for (frame, sample) in frames.iter().zip(samples.iter()) {
        if frame.left != *sample || frame.right != *sample {
            return false;
        }
    }
    true
}

// Whether what a client does on one of its blocks is answered as it must be.
fn client_does<L: Ledger>(
    client: &mut Client,
    block: &Block,
    row: &Row,
    steps: &mut Steps<L>,
) -> bool
    requires { IsClientOf block.now client.old }
    ensures { IsClientOf block.now client.new }
{
    let _wrap = block.wrap();
    match *row {
        Row::Writes(_, count) if count >= 1 && client.released() < 100_000 => {
            client.write(block, &WRITTEN[..count.min(8)], steps);
            true
        }
        Row::Sends(_, code, argument)
            if block.frames() == 128 && block.base() == 0 && client.released() < 100_000 => {
            let sent = client.send(block, code, argument, steps);
            matches!(sent, Sent::Sent { .. })
        }
        Row::Flushes(_) | Row::FlushesCommands(_) if client.flushes() < 60_000 => {
            client.flush(block, steps);
            true
        }
        Row::Pokes(_, _, rear) => {
            client.poke(block, 1, rear, steps);
            true
        }
        Row::Status(word) => client.status(block, steps) == word,
        Row::Clears(word) => client.clear_disabled(block, steps) == word,
        _ => {
            client.clear_disabled(block, steps);
            false
        }
    }
}

// The same of the client of a track.
fn track_does<L: Ledger>(
    clients: &mut [Client],
    blocks: &[Block],
    track: usize,
    row: &Row,
    steps: &mut Steps<L>,
) -> bool
    requires { AreClients blocks.now clients.old }
    ensures { AreClients blocks.now clients.new }
{
    if track >= blocks.len() {
        return false;
    }
    client_does(&mut clients[track], &blocks[track], row, steps)
}

// Whether a turn stored this of a track.
fn is_stored(entry: &TurnEntry, track: usize, status: Option<u32>, disabled: bool) -> bool {
    match entry.tracks.as_slice().get(track) {
        Some(seen) => seen.status == status && seen.disabled == disabled,
        None => status.is_none() && !disabled,
    }
}

// Whether a turn answered so, and stored this.
fn is_turned(entry: &TurnEntry, turn: Turn, row: &Row) -> bool {
    match *row {
        Row::Turns(track, pushed, status) => {
            let mixed = false;
            turn == Turn::Turned { mixed, pushed } && is_stored(entry, track, status, false)
        }
        Row::Mixes(track, pushed, status) => {
            let mixed = true;
            turn == Turn::Turned { mixed, pushed } && is_stored(entry, track, status, false)
        }
        Row::TurnsOff(pushed) => {
            let mixed = false;
            turn == Turn::Turned { mixed, pushed } && is_stored(entry, 0, None, true)
        }
        _ => turn == Turn::Ended && is_stored(entry, 0, None, false),
    }
}

// Whether the observer has this of a slot.
fn has_slot(
    observer: &Observer<Server, StreamNames>,
    slot: usize,
    carried: bool,
    track: u32,
    generation: u64,
) -> bool {
    let Some(state) = observer.current() else {
        return false;
    };
    if slot >= SLOTS {
        return false;
    }
    let found = &state.slots[slot];
    carries_item(state, slot) == carried && found.track == track && found.generation == generation
}

// Takes up to four frames out of the pipe: whether these are four of these samples.
fn hears<L: Ledger>(
    pipe: &mut PipeOut,
    links: &Links<'_>,
    samples: &[i16; 4],
    steps: &mut Steps<L>,
) -> bool
    requires { out_made pipe.old ≡ links.now.pipe.now }
    ensures { out_made pipe.new ≡ links.now.pipe.now }
{
    let mut frames = [NO_FRAME; 4];
    let count = pipe.look(links.pipe, 4, steps);
    if count >= 1 {
        pipe.take(links.pipe, &mut frames[..count as usize], steps);
    }
    count == 4 && are_both(&frames, samples)
}

// Stores the report with this of a slot.
fn reports_slot<L: Ledger>(
    writer: &mut ReportWriter,
    last: &mut Report,
    links: &Links<'_>,
    slot: usize,
    report: &SlotReport,
    steps: &mut Steps<L>,
) -> bool
    requires { (writer.old.cell ≡ links.now.report.now) × (last_cycle writer.old.events ≡ last.old.cycle) }
    ensures { (writer.new.cell ≡ links.now.report.now) × (last_cycle writer.new.events ≡ last.new.cycle) }
{
    if slot >= SLOTS || last.cycle > 100_000 {
        return true;
    }
    last.cycle += 1;
    last.slots[slot] = *report;
    writer.store(links.report, last, steps);
    true
}

// What is reported of a slot by a row of few numbers.
fn report_of(generation: u64, consumed: u64, flush_seen: u32, looks: [u32; 2]) -> SlotReport {
    let mut report = no_slot();
    report.generation = generation;
    report.consumed = consumed;
    report.flush_seen = flush_seen;
    [report.fulls, report.empties] = looks;
    report
}

impl Others {
    // Whether what the fast mixer does is answered as it must be.
    fn fast_does<L: Ledger>(&mut self, links: &Links<'_>, row: &Row, steps: &mut Steps<L>) -> bool
        requires { AreOthers links.now self.old.observer self.old.ends.0 self.old.ends.1 self.old.report self.old.streams.items self.old.commands.items }
        ensures { AreOthers links.now self.new.observer self.new.ends.0 self.new.ends.1 self.new.report self.new.streams.items self.new.commands.items }
    {
        match row {
            Row::Polls(number) if self.observer.number() < 100_000 => {
                let polled = self.observer.poll(links.queue, steps);
                polled == Poll::New { number: *number }
            }
            Row::Reports(generation, consumed, flush_seen, looks) => {
                let report = report_of(*generation, *consumed, *flush_seen, *looks);
                reports_slot(&mut self.ends.0, &mut self.report, links, 1, &report, steps)
            }
            Row::ReportsAll(slot, report) => reports_slot(
                &mut self.ends.0,
                &mut self.report,
                links,
                *slot,
                report,
                steps,
            ),
            Row::Hears(samples) => hears(&mut self.ends.1, links, samples, steps),
            Row::HasSlot(slot, carried, track, generation) => {
                has_slot(&self.observer, *slot, *carried, *track, *generation)
            }
            Row::Plays(count, seen, samples) => {
                plays_slot(&mut self.observer, links, *count, *seen, samples, steps)
            }
            Row::IsTold(command, cold) => is_told(&self.observer, *command, *cold),
            _ => false,
        }
    }

    // Whether a step that is none of the mixer's is answered as it must be.
    fn does<L: Ledger>(&mut self, links: &Links<'_>, row: &Row, steps: &mut Steps<L>) -> bool
        requires { AreOthers links.now self.old.observer self.old.ends.0 self.old.ends.1 self.old.report self.old.streams.items self.old.commands.items }
        ensures { AreOthers links.now self.new.observer self.new.ends.0 self.new.ends.1 self.new.report self.new.streams.items self.new.commands.items }
    {
        match *row {
            Row::Sends(track, _, _) | Row::FlushesCommands(track) | Row::Pokes(track, true, _) => {
                track_does(&mut self.commands, links.commands, track, row, steps)
            }
            Row::Status(_) => track_does(&mut self.commands, links.commands, 0, row, steps),
            Row::Writes(track, _) | Row::Flushes(track) | Row::Pokes(track, false, _) => {
                track_does(&mut self.streams, links.streams, track, row, steps)
            }
            Row::Clears(_) => track_does(&mut self.streams, links.streams, 0, row, steps),
            _ => self.fast_does(links, row, steps),
        }
    }
}

impl World {
    /// Whether a step is answered as it must be.
    pub(crate) fn does<L: Ledger>(
        &mut self,
        links: &Links<'_>,
        row: &Row,
        steps: &mut Steps<L>,
    ) -> bool
        requires { IsWorld links.now self.old.mixer self.old.others.observer self.old.others.ends.0 self.old.others.ends.1 self.old.others.report self.old.others.streams.items self.old.others.commands.items }
        ensures { IsWorld links.now self.new.mixer self.new.others.observer self.new.others.ends.0 self.new.others.ends.1 self.new.others.report self.new.others.streams.items self.new.others.commands.items }
    {
        match *row {
            Row::Turns(_, _, _) | Row::Mixes(_, _, _) | Row::TurnsOff(_) | Row::Ends => {
                let turn = self.mixer.turn(links, steps);
                is_turned(self.mixer.last(), turn, row)
            }
            Row::Saw(ack, room) => {
                let last = self.mixer.last();
                last.ack == ack && last.room == room
            }
            Row::Meets(so) => self.meets(links, 0, steps) == Some(so),
            Row::Disables(track, so) => {
                let World { mixer, others } = self;
                disables(mixer, links, &mut others.streams, track, steps) == so
            }
            Row::EndsMeet => {
                self.ends_meet(links, steps);
                true
            }
            Row::StaysEnded => stays_ended(&mut self.mixer, links, steps),
            _ => self.others.does(links, row, steps),
        }
    }
}
