//! A turn of the normal mixer.
ghost use Rattle.std.specs.Prelude.{◌≡◌, ℕ, ◌+◌, ◌-◌, ◌*◌, ◌<◌, ◌≤◌, ◌^◌, ◌++◌, [], MatchBool, true, false, length, reverse, map, All, Some, slice_get};
ghost use Rattle.af_base.specs.declared.report.Report.{Report as Load};
ghost use Rattle.af_base.specs.declared.state.Push.{Push as Answer};
ghost use Rattle.af_base.specs.Turn.{ended_turn, turn_of, track_seen, take_seen};
ghost use Rattle.af_link.specs.PipeEnds.{in_made};
ghost use Rattle.af_server.specs.Order.{IsServerOf};
ghost use Rattle.af_normal.specs.Mixing.{stream_at};
ghost use Rattle.af_normal.specs.Coming.{HaveSlots, WelcomesTo};
ghost use Rattle.af_normal.specs.declared.turn.Turn.TheVariants.{Turned, Ended, Spent};
ghost use Rattle.af_life.specs.Kept.{Outside};
ghost use Rattle.af_normal.specs.LegalTurned.{IsLegal};
ghost use Rattle.af_normal.specs.Order.{IsGoing, IsInOrder, most_turns};
ghost use Rattle.af_normal.specs.TurnMade.{Does, TurnMade, WentOn, answer_of, has_mixed};
ghost use Rattle.af_normal.specs.Turning.{Begins, Hands, HasHands, HandsTo, HasWhole, Learns};

use crate::mixer::{NormalMixer, TrackHand};
use af_base::{Items, Push, Report, Steps};
use af_link::Links;
use std::sync::ledger::Ledger;

/// What a turn answers.
#[derive(Clone, Copy, Debug, PartialEq, Eq)]
pub enum Turn {
    /// The turn went on: whether it put a buffer into the pipe, and what the push answered.
    Turned { mixed: bool, pushed: Push },
    /// The mixer has ended.
    Ended,
    /// It has made all of its turns, `MOST_TURNS`: nothing was done.
    Spent,
}

/// How many turns a mixer makes at most, so that its counts of 64 bits have room. At a turn each 20 ms these last for 22 million years.
pub const MOST_TURNS: u64 = 1 << 55;

// All items of a list go behind those of another.
fn give_back<T: Drop>(from: &mut Items<T>, to: &mut Items<T>)
    requires room { length to.old.items + length from.old.items ≤ to.old.room }
    ensures empty { from.new ≡ record from.old { items = [] } }
    ensures moved { to.new ≡ record to.old { items = to.old.items ++ reverse from.old.items } }
{
    for _moved in 0..from.as_slice().len() {
        let Some(item) = from.pop() else {
            unreachable!()
        };
        to.push(item);
    }
}

impl NormalMixer {
    // One turn more is counted, and the last entry's lists are emptied.
    fn begin(&mut self)
        requires few { self.old.turns < most_turns }
        requires turns { length self.old.spare_turns.items + length self.old.entry.tracks.items ≤ self.old.spare_turns.room }
        requires takes { length self.old.spare_takes.items + length self.old.entry.mixes.items ≤ self.old.spare_takes.room }
        ensures begins { Begins self.old self.new }
        ensures turns { self.new.spare_turns ≡ (record self.old.spare_turns { items = self.old.spare_turns.items ++ reverse self.old.entry.tracks.items }) }
        ensures takes { self.new.spare_takes ≡ (record self.old.spare_takes { items = self.old.spare_takes.items ++ reverse self.old.entry.mixes.items }) }
        ensures rooms { (self.new.entry.tracks.room ≡ self.old.entry.tracks.room) × (self.new.entry.mixes.room ≡ self.old.entry.mixes.room) }
    {
        self.turns += 1;
        give_back(&mut self.entry.tracks, &mut self.spare_turns);
        give_back(&mut self.entry.mixes, &mut self.spare_takes);
    }

    // The stream proxy of a track, which is home, gives its hand.
    fn split_hand<L: Ledger>(&mut self, links: &Links<'_>, i: usize, steps: &mut Steps<L>)
        requires track { (i < 2 ^ 32) × (i < length self.old.streams) × (i < length self.old.tracks) × (i < length links.now.streams.now) }
        requires next { length self.old.hands ≡ i }
        requires whole { HasWhole links.now.streams.now i self.old.streams }
        ensures hands { Hands i self.old self.new }
    {
        let Some(server) = &mut self.streams[i] else {
            unreachable!()
        };
        let flag = server.hand(&links.streams[i], steps);
        let track = i as u32;
        self.hands.push_reserved(TrackHand { track, flag });
    }

    // In the first turn each stream proxy gives its hand.
    fn make_hands<L: Ledger>(&mut self, links: &Links<'_>, steps: &mut Steps<L>)
        requires sizes { (length self.old.streams ≡ length self.old.tracks) × (length self.old.tracks ≤ length links.now.streams.now) }
        requires few { length self.old.tracks ≤ 32 }
        requires whole { self.old.hands ≡ [] → (i : ℕ) → i < length self.old.tracks → HasWhole links.now.streams.now i self.old.streams }
        ensures hands { HasHands self.old self.new }
    {
        if !self.hands.is_empty() {
            return;
        }
        for i in 0..self.tracks.len() {
            self.split_hand(links, i, steps);
        }
    }

    // The report is loaded, and the pipe's room is read.
    fn learn<L: Ledger>(&mut self, links: &Links<'_>, steps: &mut Steps<L>) -> (Report, u32)
        requires report { self.old.reader.cell ≡ links.now.report.now }
        requires pipe { in_made self.old.pipe ≡ links.now.pipe.now }
        ensures learns { Learns result.0 result.1 self.old self.new }
    {
        let report = self.ends.0.load(links.report, steps);
        let room = self.ends.1.room(links.pipe, steps);
        (report, room)
    }

    // The rest of the entry is filled.
    fn note(&mut self, room: u32, ack: bool, cycle: u64, push: Push)
        ensures tells { turn_of self.new.entry ≡ record { ended = false; room = room; ack = ack; cycle = cycle; tracks = map track_seen self.old.entry.tracks.items; push = push; mixes = map take_seen self.old.entry.mixes.items } }
        ensures same { self.new ≡ (record self.old { entry = self.new.entry }) }
        ensures lists { (self.new.entry.tracks ≡ self.old.entry.tracks) × (self.new.entry.mixes ≡ self.old.entry.mixes) }
    {
        self.entry.ended = false;
        self.entry.room = room;
        self.entry.ack = ack;
        self.entry.cycle = cycle;
        self.entry.push = push;
    }

    // What follows once the acknowledgement was seen and the proxies are home.
    fn go_on<L: Ledger>(&mut self, links: &Links<'_>, ack: bool, steps: &mut Steps<L>) -> Turn
        requires going { IsGoing links.now (self.old.turns - 1) self.old }
        requires few { self.old.turns ≤ most_turns }
        ensures goes { (report : Load) × (room : ℕ) × (push : Answer) × WentOn links.now ack report room push self.old self.new × (result ≡ Turned (has_mixed self.new) push) }
    {
        let (report, room) = self.learn(links, steps);
        self.serve_all(links, &report, steps);
        self.mutate(links, room);
        let pushed = self.push(links, steps);
        let mixed = self.play(links, room, steps);
        self.note(room, ack, report.cycle, pushed);
        Turn::Turned { mixed, pushed }
    }

    // The mixer has ended.
    fn stop(&mut self) -> Turn
        ensures ended { result ≡ Ended }
        ensures tells { turn_of self.new.entry ≡ ended_turn }
        ensures rooms { (self.new.entry.tracks.room ≡ self.old.entry.tracks.room) × (self.new.entry.mixes.room ≡ self.old.entry.mixes.room) }
        ensures leaves { self.new ≡ (record self.old { ended = true; entry = self.new.entry }) }
    {
        self.ended = true;
        self.entry.end();
        Turn::Ended
    }

    // If the last push was seen acknowledged, the proxies in hand come home.
    fn come_home(&mut self, ack: bool)
        requires long { length self.old.streams ≡ length self.old.tracks }
        requires slots { HaveSlots self.old.tracks }
        ensures { MatchBool ack (WelcomesTo (length self.old.tracks) self.old self.new) (self.new ≡ self.old) }
    {
        if ack {
            self.welcome_all();
        }
    }

    // The rest of a turn of a mixer that had not ended.
    fn look<L: Ledger>(&mut self, links: &Links<'_>, steps: &mut Steps<L>) -> Turn
        requires going { IsGoing links.now (self.old.turns - 1) self.old }
        requires few { self.old.turns ≤ most_turns }
        requires lives { self.old.ended ≡ false }
        ensures does { Does result self.old self.new }
        ensures legal { (o : Outside) × IsLegal o self.old self.new }
        ensures order { IsInOrder links.now self.new }
        ensures turns { self.new.turns ≡ self.old.turns }
    {
        let ack = self.mutator.acked(links.queue, steps);
        let over = ack & self.exits;
        if over {
            return self.stop();
        }
        self.come_home(ack);
        self.go_on(links, ack, steps)
    }

    // A turn that is counted.
    fn make_turn<L: Ledger>(&mut self, links: &Links<'_>, steps: &mut Steps<L>) -> Turn
        requires order { IsInOrder links.now self.old }
        requires few { self.old.turns < most_turns }
        ensures order { IsInOrder links.now self.new }
        ensures turns { self.new.turns ≡ self.old.turns + 1 }
        ensures answer { result ≡ answer_of (turn_of self.new.entry) }
        ensures made { TurnMade result self.old self.new }
        ensures legal { (o : Outside) × IsLegal o self.old self.new }
    {
        self.begin();
        self.make_hands(links, steps);
        if self.ended {
            return self.stop();
        }
        self.look(links, steps)
    }

    /// One turn. The acknowledgement is looked for, and what comes by it comes home; the report is loaded and the pipe's room read; each track has its part; the draft is edited and pushed; and if the pipe has room for a buffer, the tracks without a slot are mixed into it. If a pushed Exit is seen acknowledged the mixer has ended, and so it has in each turn after that.
    ///
    /// It goes by the steps of a turn, in their order. The turn that its entry records is a legal one, by what it saw; what the mixer keeps is what that turn leaves; and the list of each of its parties grows by just what the entry records. It takes no memory and waits for nobody.
    ///
    /// It answers Spent, and does nothing, exactly if it has made `MOST_TURNS` turns.
    pub fn turn<L: Ledger>(&mut self, links: &Links<'_>, steps: &mut Steps<L>) -> Turn
        requires order { IsInOrder links.now self.old }
        ensures order { IsInOrder links.now self.new }
        ensures spent { most_turns ≤ self.old.turns → (result ≡ Spent) × (self.new ≡ self.old) }
        ensures turns { self.old.turns < most_turns → self.new.turns ≡ self.old.turns + 1 }
        ensures answer { self.old.turns < most_turns → result ≡ answer_of (turn_of self.new.entry) }
        ensures made { self.old.turns < most_turns → TurnMade result self.old self.new }
        ensures legal { self.old.turns < most_turns → (o : Outside) × IsLegal o self.old self.new }
    {
        if self.turns >= MOST_TURNS {
            return Turn::Spent;
        }
        self.make_turn(links, steps)
    }
}
