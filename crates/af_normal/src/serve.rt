//! The tracks' part of a turn, one after the other.
ghost use Rattle.std.specs.Prelude.{◌≡◌, ℕ, ◌+◌, ◌-◌, ◌<◌, ◌^◌, [], ◌∷◌, ◌++◌, MatchBool, false, length, Some};
ghost use Rattle.af_base.specs.Log.{slots};
ghost use Rattle.af_base.specs.Turn.{track_seen};
ghost use Rattle.af_server.specs.Order.{IsInOrder, ServerState};
ghost use Rattle.af_life.specs.Kept.{Learnt, nothing_seen, slot_number, track_at};
ghost use Rattle.af_life.specs.Obeys.{slot_for};
ghost use Rattle.af_life.specs.Serves.{after_part, most_looks};
ghost use Rattle.af_model.specs.Reports.{report_at};
ghost use Rattle.af_base.specs.declared.turn.TrackTurn.{TrackTurn as Record};
ghost use Rattle.af_normal.specs.Mixing.{stream_at};
ghost use Rattle.af_normal.specs.Ready.{AreOwn, HaveRoom, serving_of};
ghost use Rattle.af_normal.specs.Serving.{AttendsAt, known_at, ServesBy, ServesTrack};
ghost use Rattle.af_normal.specs.Order.{HasTurns};
ghost use Rattle.af_normal.specs.State.{setup_of};
ghost use Rattle.af_normal.specs.TurnMade.{IsServable, ServesAll};

use crate::attend::{NOTHING_HEARD, attend, known};
use crate::mixer::{NormalMixer, TrackHand};
use af_base::{Report, SlotReport, Steps, TrackTurn, TrackTurns};
use af_life::{Heard, TrackKept, free_slot};
use af_link::Links;
use af_server::Server;
use std::sync::ledger::Ledger;

// A record of a track in which nothing was seen, from the spare ones.
fn next_turn(spare: &mut TrackTurns) -> TrackTurn
    requires some { 0 < length spare.old.items }
    requires rooms { HaveRoom spare.old.items }
    ensures turn { track_seen result ≡ nothing_seen }
    ensures room { result.looks.room ≡ most_looks }
    ensures rest { (length spare.new.items + 1 ≡ length spare.old.items) × HaveRoom spare.new.items × (spare.new.room ≡ spare.old.room) }
{
    let Some(mut turn) = spare.pop() else {
        unreachable!()
    };
    turn.looks.clear();
    turn.status = None;
    turn.disabled = false;
    turn
}

// What the report says of the track's slot.
fn slot_reported(report: &Report, track: TrackKept) -> SlotReport
    requires slot { slot_number track < slots }
    ensures { result ≡ report_at report.now.slots (slot_number track) }
{
    report.slots[track.slot_number() as usize]
}

// The part of a track that is not passed over, with its two proxies and its hand.
fn attend_at<L: Ledger>(
    i: usize,
    links: &Links<'_>,
    given: Option<u32>,
    heard: Heard,
    ready: TrackKept,
    streams: &mut [Option<Server>],
    commands: &mut [Server],
    hands: &mut [TrackHand],
    seen: &mut TrackTurn,
    steps: &mut Steps<L>,
) -> TrackKept
    requires track { (i < length streams.old) × AreOwn links.now streams.old commands.old hands.old i }
    requires seen { (track_seen seen.old ≡ nothing_seen) × (seen.old.looks.room ≡ most_looks) }
    requires few { ready.settled < 2 ^ 62 - 128 }
    ensures own { AreOwn links.now streams.new commands.new hands.new i }
    ensures attends { AttendsAt given heard ready i streams.old commands.old hands.old (track_seen seen.new) streams.new commands.new hands.new }
    ensures track { result ≡ after_part given heard seen.new.looks.items ready }
    ensures room { seen.new.looks.room ≡ seen.old.looks.room }
{
    attend(
        &mut commands[i],
        &mut streams[i],
        &mut hands[i],
        &links.commands[i],
        &links.streams[i],
        given,
        heard,
        ready,
        seen,
        steps,
    )
}

impl NormalMixer {
    // What the stream proxy of a track knows, if it is home.
    fn own(&self, track: usize) -> Heard
        requires track { track < length self.now.streams }
        requires order { (s : ServerState) → stream_at self.now.streams track ≡ Some s → IsInOrder s }
        ensures { result ≡ known_at (stream_at self.now.streams track) }
    {
        match &self.streams[track] {
            Some(server) => known(server),
            None => NOTHING_HEARD,
        }
    }

    // The slot that an OPEN of a track gets.
    fn slot_for(&self, track: usize) -> Option<u32>
        requires track { track < length self.now.settings }
        ensures { result ≡ slot_for (setup_of self.now) self.now.tracks track }
    {
        if !self.settings[track].fast {
            return None;
        }
        free_slot(&self.tracks)
    }

    // The part of a track that had not ended.
    fn attend_to<L: Ledger>(
        &mut self,
        links: &Links<'_>,
        i: usize,
        report: &Report,
        seen: &mut TrackTurn,
        steps: &mut Steps<L>,
    )
        requires track { (i < length self.old.tracks) × (i < length self.old.streams) × (i < length self.old.settings) }
        requires lives { (track_at self.old.tracks i).life.ended ≡ false }
        requires slot { slot_number (track_at self.old.tracks i) < slots }
        requires few { (track_at self.old.tracks i).settled < 2 ^ 62 - 256 }
        requires own { AreOwn links.now self.old.streams self.old.commands self.old.hands i }
        requires seen { (track_seen seen.old ≡ nothing_seen) × (seen.old.looks.room ≡ most_looks) }
        ensures serves { (k : Learnt) → k.report ≡ report.now → k.own i ≡ known_at (stream_at self.old.streams i) → ServesBy (setup_of self.old) k i (track_seen seen.new) (serving_of self.old) (serving_of self.new) }
        ensures own { AreOwn links.now self.new.streams self.new.commands self.new.hands i }
        ensures same { self.new ≡ (record self.old { tracks = self.new.tracks; streams = self.new.streams; commands = self.new.commands; hands = self.new.hands }) }
        ensures room { seen.new.looks.room ≡ most_looks }
    {
        let track = self.tracks[i];
        let own = self.own(i);
        let given = self.slot_for(i);
        let reported = slot_reported(report, track);
        let heard = track.heard(own, reported);
        let ready = track.noted(reported).settled_at(heard.flush_seen);
        let NormalMixer {
            tracks,
            streams,
            commands,
            hands,
            ..
        } = self;
        tracks[i] = attend_at(
            i, links, given, heard, ready, streams, commands, hands, seen, steps,
        );
    }

    // The part of any track: one that had ended is passed over.
    fn attend_due<L: Ledger>(
        &mut self,
        links: &Links<'_>,
        i: usize,
        report: &Report,
        seen: &mut TrackTurn,
        steps: &mut Steps<L>,
    )
        requires track { (i < length self.old.tracks) × (i < length self.old.streams) × (i < length self.old.settings) }
        requires slot { slot_number (track_at self.old.tracks i) < slots }
        requires few { (track_at self.old.tracks i).settled < 2 ^ 62 - 256 }
        requires own { AreOwn links.now self.old.streams self.old.commands self.old.hands i }
        requires seen { (track_seen seen.old ≡ nothing_seen) × (seen.old.looks.room ≡ most_looks) }
        ensures serves { (k : Learnt) → k.report ≡ report.now → k.own i ≡ known_at (stream_at self.old.streams i) → MatchBool (track_at self.old.tracks i).life.ended ((self.new ≡ self.old) × (track_seen seen.new ≡ nothing_seen)) (ServesBy (setup_of self.old) k i (track_seen seen.new) (serving_of self.old) (serving_of self.new)) }
        ensures own { AreOwn links.now self.new.streams self.new.commands self.new.hands i }
        ensures same { self.new ≡ (record self.old { tracks = self.new.tracks; streams = self.new.streams; commands = self.new.commands; hands = self.new.hands }) }
        ensures room { seen.new.looks.room ≡ most_looks }
    {
        if self.tracks[i].life.ended {
            return;
        }
        self.attend_to(links, i, report, seen, steps);
    }

    // A track has its part of the turn, and its record joins the entry. One that had ended is passed over.
    fn serve<L: Ledger>(
        &mut self,
        links: &Links<'_>,
        i: usize,
        report: &Report,
        steps: &mut Steps<L>,
    )
        requires track { (i < length self.old.tracks) × (i < length self.old.streams) × (i < length self.old.settings) }
        requires slot { slot_number (track_at self.old.tracks i) < slots }
        requires few { (track_at self.old.tracks i).settled < 2 ^ 62 - 256 }
        requires own { AreOwn links.now self.old.streams self.old.commands self.old.hands i }
        requires spare { (0 < length self.old.spare_turns.items) × HaveRoom self.old.spare_turns.items }
        requires room { length self.old.entry.tracks.items < self.old.entry.tracks.room }
        ensures serves { (k : Learnt) → k.report ≡ report.now → k.own i ≡ known_at (stream_at self.old.streams i) → ServesTrack (setup_of self.old) k i (serving_of self.old) (serving_of self.new) }
        ensures own { AreOwn links.now self.new.streams self.new.commands self.new.hands i }
        ensures same { self.new ≡ (record self.old { tracks = self.new.tracks; streams = self.new.streams; commands = self.new.commands; hands = self.new.hands; entry = self.new.entry; spare_turns = self.new.spare_turns }) }
        ensures entry { self.new.entry ≡ (record self.old.entry { tracks = self.new.entry.tracks }) }
        ensures spare { (length self.new.spare_turns.items + 1 ≡ length self.old.spare_turns.items) × HaveRoom self.new.spare_turns.items × (self.new.spare_turns.room ≡ self.old.spare_turns.room) }
        ensures turns { (turn : Record) × (self.new.entry.tracks ≡ record self.old.entry.tracks { items = self.old.entry.tracks.items ++ turn ∷ [] }) × (turn.looks.room ≡ most_looks) }
    {
        let mut seen = next_turn(&mut self.spare_turns);
        self.attend_due(links, i, report, &mut seen, steps);
        self.entry.tracks.push(seen);
    }

    /// Each track has its part of the turn, in order.
    pub(crate) fn serve_all<L: Ledger>(
        &mut self,
        links: &Links<'_>,
        report: &Report,
        steps: &mut Steps<L>,
    )
        requires sizes { (length self.old.streams ≡ length self.old.tracks) × (length self.old.settings ≡ length self.old.tracks) }
        requires tracks { (i : ℕ) → i < length self.old.tracks → IsServable links.now i self.old }
        requires turns { HasTurns (length self.old.tracks) self.old.entry.tracks self.old.spare_turns }
        requires none { self.old.entry.tracks.items ≡ [] }
        ensures serves { ServesAll report.now self.old self.new }
        ensures own { (i : ℕ) → i < length self.new.tracks → AreOwn links.now self.new.streams self.new.commands self.new.hands i }
        ensures turns { HasTurns (length self.old.tracks) self.new.entry.tracks self.new.spare_turns }
        ensures entry { self.new.entry ≡ (record self.old.entry { tracks = self.new.entry.tracks }) }
    {
        for i in 0..self.tracks.len() {
            self.serve(links, i, report, steps);
        }
    }
}
