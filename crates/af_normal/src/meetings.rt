//! The meetings of the mixer's ends, and of the proxies that are home.
ghost use Rattle.std.specs.Prelude.{◌≡◌, ℕ, ◌+◌, ◌<◌, ◌⊎◌, true, false, [], is_some, length, slice_get, slice_set, Option, Some, None};
ghost use Rattle.af_cblk.specs.Sides.{hand_made};
ghost use Rattle.af_client.specs.Order.{IsClientOf};
ghost use Rattle.af_model.specs.NewestValue.{HasValueHistory as HasReportHistory};
ghost use Rattle.af_model.specs.PipeHistory.{HasPipeHistory};
ghost use Rattle.af_model.specs.Reports.{no_report};
ghost use Rattle.af_model.specs.StateQueue.{HasStateHistory as HasQueueHistory};
ghost use Rattle.af_server.specs.Order.{IsServerOf, ServerState};
ghost use Rattle.af_link.specs.PipeEnds.{SeesTaken, out_made};
ghost use Rattle.af_link.specs.Reports.{CyclesNeverFall};
ghost use Rattle.af_life.specs.Kept.{is_home, track_at};
ghost use Rattle.af_normal.specs.Meeting.{AreClientsOf, AreOf, Meets, MeetsStream, MeetsTrack, ends_met, observer_met, out_met, queue_met, writer_met};
ghost use Rattle.af_normal.specs.Mixing.{stream_at};
ghost use Rattle.af_normal.specs.Order.{IsInOrder};

use crate::mixer::{NormalMixer, TrackHand};
use af_base::Steps;
use af_cblk::{Block, FlagHand};
use af_client::Client;
use af_link::{
    Links, PipeOut, ReportWriter, StreamNames, meet_all, meet_pipe, meet_report, meet_track,
};
use af_server::Server;
use af_stateq::{Observer, meet};
use std::sync::ledger::Ledger;

// The proxies of a track whose hand is still with the stream proxy meet their clients; whether the stream proxy is there.
fn meet_alone<L: Ledger>(
    command: &mut Server,
    stream: &mut Option<Server>,
    command_block: &Block,
    stream_block: &Block,
    command_client: &mut Client,
    stream_client: &mut Client,
    steps: &mut Steps<L>,
) -> bool
    requires command { IsClientOf command_block.now command_client.old × IsServerOf command_block.now command.old }
    requires stream { (s : ServerState) → stream.old ≡ Some s → IsServerOf stream_block.now s }
    requires client { IsClientOf stream_block.now stream_client.old }
    ensures command { IsClientOf command_block.now command_client.new × IsServerOf command_block.now command.new }
    ensures stream { (s : ServerState) → stream.new ≡ Some s → IsServerOf stream_block.now s }
    ensures client { IsClientOf stream_block.now stream_client.new }
    ensures commanded { Meets command_block.now command.old command.new command_client.old command_client.new }
    ensures streamed { MeetsStream stream_block.now stream.old None stream_client.old stream.new None stream_client.new }
    ensures there { result ≡ is_some stream.old }
{
    meet_track(command_client, command, command_block, steps);
    let Some(server) = stream else {
        return false;
    };
    meet_track(stream_client, server, stream_block, steps);
    true
}

// The proxies of a track whose hand was split off meet their clients, and the hand as well; whether the stream proxy is there.
fn meet_with_hand<L: Ledger>(
    command: &mut Server,
    stream: &mut Option<Server>,
    hand: &mut FlagHand,
    command_block: &Block,
    stream_block: &Block,
    command_client: &mut Client,
    stream_client: &mut Client,
    steps: &mut Steps<L>,
) -> bool
    requires command { IsClientOf command_block.now command_client.old × IsServerOf command_block.now command.old }
    requires stream { (s : ServerState) → stream.old ≡ Some s → IsServerOf stream_block.now s }
    requires client { IsClientOf stream_block.now stream_client.old }
    requires hand { hand_made hand.old ≡ stream_block.now }
    ensures command { IsClientOf command_block.now command_client.new × IsServerOf command_block.now command.new }
    ensures stream { (s : ServerState) → stream.new ≡ Some s → IsServerOf stream_block.now s }
    ensures client { IsClientOf stream_block.now stream_client.new }
    ensures hand { hand_made hand.new ≡ stream_block.now }
    ensures commanded { Meets command_block.now command.old command.new command_client.old command_client.new }
    ensures streamed { MeetsStream stream_block.now stream.old (Some hand.old) stream_client.old stream.new (Some hand.new) stream_client.new }
    ensures there { result ≡ is_some stream.old }
{
    meet_track(command_client, command, command_block, steps);
    let Some(server) = stream else {
        return false;
    };
    meet_all(stream_client, server, hand, stream_block, steps);
    true
}

// The proxies of a track meet their clients, by its number, whether its hand was split off or not; whether the stream proxy is there.
fn meet_at<L: Ledger>(
    i: usize,
    links: &Links<'_>,
    streams: &mut [Option<Server>],
    commands: &mut [Server],
    hands: &mut [TrackHand],
    stream: &mut Client,
    command: &mut Client,
    steps: &mut Steps<L>,
) -> bool
    requires track { (i < length streams.old) × (i < length commands.old) × ((length hands.old ≡ 0) ⊎ (i < length hands.old)) }
    requires own { AreOf links.now i streams.old commands.old hands.old }
    requires clients { AreClientsOf links.now i stream.old command.old }
    ensures own { AreOf links.now i streams.new commands.new hands.new }
    ensures clients { AreClientsOf links.now i stream.new command.new }
    ensures met { MeetsTrack links.now i streams.old streams.new commands.old commands.new hands.old hands.new stream.old stream.new command.old command.new }
    ensures there { result ≡ is_some (stream_at streams.old i) }
{
    if hands.is_empty() {
        return meet_alone(
            &mut commands[i],
            &mut streams[i],
            &links.commands[i],
            &links.streams[i],
            command,
            stream,
            steps,
        );
    }
    let hand = &mut hands[i];
    meet_with_hand(
        &mut commands[i],
        &mut streams[i],
        &mut hand.flag,
        &links.commands[i],
        &links.streams[i],
        command,
        stream,
        steps,
    )
}

impl NormalMixer {
    /// The reader of reports and the end that puts frames meet the other ends of the report and of the pipe, which `FastMixer::pair` lends. Each learns what its other has done so far. It appends Learn to each of the four lists, in ten steps.
    ///
    /// Whatever the order in which their steps came, the two lists of each object have a history, with these Learns.
    pub fn meet_ends<L: Ledger>(
        &mut self,
        links: &Links<'_>,
        other: &mut (ReportWriter, PipeOut),
        steps: &mut Steps<L>,
    )
        requires order { IsInOrder links.now self.old }
        requires other { (other.old.0.cell ≡ links.now.report.now) × (out_made other.old.1 ≡ links.now.pipe.now) }
        ensures order { IsInOrder links.now self.new }
        ensures ends { self.new ≡ ends_met self.old other.old.0 other.old.1 }
        ensures other { (other.new.0 ≡ writer_met self.old other.old.0) × (other.new.1 ≡ out_met self.old other.old.1) }
        ensures report { HasReportHistory no_report other.new.0.events self.new.reader.events }
        ensures never_older { CyclesNeverFall other.new.0.events 0 self.new.reader.events }
        ensures pipe { HasPipeHistory links.now.pipe.now.shape.frames self.new.pipe.pass.part.events self.new.pipe.pass.part.frames other.new.1.pass.part.events other.new.1.pass.part.frames }
        ensures fronts { SeesTaken 0 other.new.1.pass.part.events }
        ensures steps { steps.new ≡ steps.old + 10 }
    {
        let NormalMixer { ends, .. } = self;
        let (reader, pipe) = ends;
        let (writer, out) = other;
        meet_report(links.report, writer, reader, steps);
        meet_pipe(links.pipe, pipe, out, steps);
    }

    /// The mutator meets the observer, which `FastMixer::observer` lends, in five steps. It appends Learn to each list, and the two have a history.
    pub fn meet_queue<L: Ledger>(
        &mut self,
        links: &Links<'_>,
        observer: &mut Observer<Server, StreamNames>,
        steps: &mut Steps<L>,
    )
        requires order { IsInOrder links.now self.old }
        requires together { observer.old.past.queue ≡ links.now.queue.now }
        ensures order { IsInOrder links.now self.new }
        ensures mutator { self.new ≡ queue_met self.old observer.old }
        ensures observer { observer.new ≡ observer_met self.old observer.old }
        ensures history { HasQueueHistory self.new.mutator.past.first self.new.mutator.past.events observer.new.past.events }
        ensures steps { steps.new ≡ steps.old + 5 }
    {
        let NormalMixer { mutator, .. } = self;
        meet(links.queue, mutator, observer, steps);
    }

    /// The client of a track's command block meets the command proxy. If the stream proxy is home it meets the client of the stream block, together with the hand once that is split off, and the answer is true. Elsewhere the stream block isn't touched, and the answer is false.
    pub fn meet_client<L: Ledger>(
        &mut self,
        links: &Links<'_>,
        track: u32,
        stream: &mut Client,
        command: &mut Client,
        steps: &mut Steps<L>,
    ) -> bool
        requires order { IsInOrder links.now self.old }
        requires track { track < length self.old.tracks }
        requires clients { AreClientsOf links.now track stream.old command.old }
        ensures order { IsInOrder links.now self.new }
        ensures clients { AreClientsOf links.now track stream.new command.new }
        ensures met { MeetsTrack links.now track self.old.streams self.new.streams self.old.commands self.new.commands self.old.hands self.new.hands stream.old stream.new command.old command.new }
        ensures same { self.new ≡ (record self.old { streams = self.new.streams; commands = self.new.commands; hands = self.new.hands }) }
        ensures home { result ≡ is_home (track_at self.old.tracks track).holder }
    {
        let NormalMixer {
            streams,
            commands,
            hands,
            ..
        } = self;
        meet_at(
            track as usize,
            links,
            streams,
            commands,
            hands,
            stream,
            command,
            steps,
        )
    }
}
