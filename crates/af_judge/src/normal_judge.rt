//! The normal mixer as a journal tells it: what it keeps from turn to turn, and whether a turn is legal.
ghost use Rattle.std.specs.Prelude.{◌≡◌, ◌↔◌, ℕ, ◌+◌, ◌<◌, ◌≤◌, ◌++◌, ◌∷◌, [], true, false, if◌then◌else◌, IfOk, OnOk, IsTrue, length, map};
ghost use Rattle.af_base.specs.Turn.{take_seen, turn_of, ended_turn};
ghost use Rattle.af_model.specs.JournalForm.{IsTurn, TracksRise};
ghost use Rattle.af_life.specs.Edits.{LegalPush, after_ack, welcomed};
ghost use Rattle.af_life.specs.Kept.{is_home, new_normal, slot_number, track_at, track_in};
ghost use Rattle.af_life.specs.Plain.{learnt_of};
ghost use Rattle.af_life.specs.Plays.{put_by, tracks_due};
ghost use Rattle.af_life.specs.Serves.{LegalTrack, served_to};
ghost use Rattle.af_life.specs.Small.{most_tracks, turn_weight};
ghost use Rattle.af_life.specs.Turn.{after_edits, ends_now, turn_after};
ghost use Rattle.af_base.specs.Log.{slots};
ghost use Rattle.af_runs.specs.Told.{is_pushed};
ghost use Rattle.af_judge.specs.NormalJudged.{Ends, Follows, IsJudged};
ghost use Rattle.af_judge.specs.NormalTold.{AllTold, IsRight, IsTold, LooksRight, RightTurn, all_known};
ghost use Rattle.af_judge.specs.NormalTurns.{Begins, Serves};

use crate::mixer_setup::{MixerSetup, track_at};
use crate::normal_tells::{all_known, all_taken, tell};
use crate::pushes::{is_legal_push, is_to_push};
use crate::track_judge::TrackJudge;
use af_base::{Command, FastState, Frame, Memory, NormalTake, Push, Report, TurnEntry};
use af_life::{Heard, Holder, PlainMixer, Setting, TrackKept, turn_weight};
use af_model::first_state;
use std::alloc::Global;
use std::marker::Model;

// The most that the turns weigh together.
const MOST_TURNS: usize = 131_072;

/// A normal mixer: what it is made of and what it keeps, the state pushed last and all that were pushed, and whether it made its hands.
#[derive(Drop)]
pub struct NormalJudge {
    setup: MixerSetup,
    mixer: PlainMixer,
    last: FastState,
    states: Vec<FastState>,
    has_hands: bool,
}

impl Model for NormalJudge {
    ghost use Rattle.af_judge.specs.NormalJudged.{NormalJudged};

    ghost Value = { NormalJudged };

    ghost view = { λ j. record { setup = j.setup; plain = j.mixer; last = j.last; states = j.states.items; handed = j.has_hands } };
}

// Whether the entry is the whole of a turn that has ended.
fn is_ended_turn(entry: &TurnEntry) -> bool
    ensures { IsTrue result ↔ (turn_of entry.now ≡ ended_turn) }
{
    let empty = entry.tracks.as_slice().is_empty() && entry.mixes.as_slice().is_empty();
    let still = entry.room == 0 && entry.ack && entry.cycle == 0 && entry.push == Push::Clean;
    entry.ended && still && empty
}

impl NormalJudge {
    /// A mixer before its first turn, of these tracks. Memory is its only refusal.
    pub fn new(
        alloc: Global,
        frames: u32,
        normal: u32,
        settings: &[Setting],
    ) -> Result<NormalJudge, Memory>
        requires { (frames ≤ 1024) × (normal ≤ 16) × (length settings.now ≤ most_tracks) }
        ensures judged { IfOk result (λ j. IsJudged j) }
        ensures setup { IfOk result (λ j. j.setup ≡ record { frames = frames; normal = normal; settings = settings.now }) }
        ensures kept { IfOk result (λ j. j.plain.kept ≡ new_normal j.setup) }
        ensures new { IfOk result (λ j. (j.states ≡ []) × (j.handed ≡ false)) }
    {
        let mixer = PlainMixer::new(alloc, frames, normal, settings.to_vec(alloc)?)?;
        Ok(NormalJudge {
            setup: MixerSetup {
                frames,
                normal,
                settings: settings.to_vec(alloc)?,
            },
            mixer,
            last: first_state(frames),
            states: Vec::new(alloc),
            has_hands: false,
        })
    }

    /// Whether a turn answered that the mixer has ended.
    pub fn has_ended(&self) -> bool
        ensures { result ≡ self.now.plain.kept.ended }
    {
        self.mixer.has_ended()
    }

    /// Whether the mixer made its hands.
    pub fn has_hands(&self) -> bool
        ensures { result ≡ self.now.handed }
    {
        self.has_hands
    }

    /// The states pushed, in order: the first has the number 1.
    pub fn states(&self) -> &[FastState]
        ensures { result.now ≡ self.now.states }
    {
        self.states.as_slice()
    }

    /// The state that the mixer would push now.
    pub fn draft(&self) -> &FastState
        ensures { result.now ≡ self.now.plain.kept.draft }
    {
        self.mixer.draft()
    }

    /// Whether the stream proxy of a track is home.
    pub fn is_home(&self, track: u32) -> bool
        ensures { result ≡ is_home (track_at self.now.plain.kept.tracks track).holder }
    {
        match self.mixer.tracks().get(track as usize) {
            Some(kept) => kept.holder == Holder::Home,
            None => true,
        }
    }

    /// The frames that a turn with these takes put into the pipe: one buffer of their mix, if there are some. Memory is its only refusal.
    pub fn put(&self, alloc: Global, takes: &[NormalTake]) -> Result<Vec<Frame>, Memory>
        requires judged { IsJudged self.now }
        ensures { IfOk result (λ frames. frames.items ≡ put_by self.now.setup (map take_seen takes.now)) }
    {
        self.setup.put(alloc, takes)
    }

    // Whether a turn of this weight is counted.
    fn has_room(&self, weight: usize) -> bool
        ensures { IsTrue result ↔ (self.now.plain.turns + weight ≤ 131072) }
    {
        weight <= MOST_TURNS && self.mixer.turns() as usize <= MOST_TURNS - weight
    }

    // The mixer had ended, or sees an Exit acknowledged.
    fn ends_now(&self, ack: bool) -> bool
        requires judged { IsJudged self.now }
        ensures { result ≡ ends_now self.now.plain.kept ack }
    {
        let exits = self.last.command.code() == Command::Exit.code();
        self.mixer.has_ended() || exits && ack
    }

    // Whether a turn that went on was to go on, and saw numbers that it may have seen.
    fn begins(&self, report: &Report, entry: &TurnEntry) -> bool
        requires judged { IsJudged self.now }
        ensures { IsTrue result ↔ Begins self.now.setup report.now self.now.plain.kept (turn_of entry.now) }
    {
        let acks = entry.ack || self.mixer.pushed() > 0;
        let whole = entry.tracks.as_slice().len() == self.setup.settings.len();
        let seen = entry.cycle == report.cycle && entry.room <= self.setup.pipe_size();
        !self.ends_now(entry.ack) && acks && seen && whole
    }

    // A track as a turn finds it, once what came home is there.
    fn found(&self, ack: bool, track: TrackKept) -> TrackKept
        requires slot { slot_number track < slots }
        ensures { result ≡ (if ack then welcomed self.now.last track else track) }
    {
        if !ack {
            return track;
        }
        track.welcomed(&self.last)
    }

    // The tracks as a turn finds them.
    fn all_found(&self, alloc: Global, ack: bool) -> Result<Vec<TrackKept>, Memory>
        requires judged { IsJudged self.now }
        ensures { IfOk result (λ tracks. tracks.items ≡ (after_ack ack self.now.plain.kept).tracks) }
    {
        let mut tracks = Vec::new(alloc);
        for track in self.mixer.tracks() {
            tracks.push(self.found(ack, *track))?;
        }
        Ok(tracks)
    }

    // Whether each track was served as it is due, by what those before it left.
    fn are_served(
        &self,
        alloc: Global,
        report: &Report,
        own: &[Heard],
        entry: &TurnEntry,
    ) -> Result<bool, Memory>
        requires judged { IsJudged self.now }
        requires turns { self.now.plain.turns + turn_weight (turn_of entry.now) ≤ 131072 }
        requires own { length own.now ≡ length self.now.plain.kept.tracks }
        requires whole { length entry.now.tracks.items ≡ length self.now.plain.kept.tracks }
        ensures { IfOk result (λ served. let c = self.now.plain.setup in let k = learnt_of report.now own.now in let e = turn_of entry.now in let m = after_ack e.ack self.now.plain.kept in
            IsTrue served ↔ ((i : ℕ) → i < length self.now.plain.kept.tracks → LegalTrack c k (track_in e i) (served_to c k e.tracks m.tracks i) i)) }
    {
        let found = self.all_found(alloc, entry.ack)?;
        Ok(
            self.setup
                .are_served(report, own, found, entry.tracks.as_slice()),
        )
    }

    // Notes what a turn did for each track. Answers whether each look answers as its words say.
    fn tell_all(
        &self,
        tracks: &mut [TrackJudge],
        report: &Report,
        own: &[Heard],
        entry: &TurnEntry,
    ) -> Result<bool, Memory>
        requires judged { IsJudged self.now }
        requires sizes { (length tracks.old ≡ length self.now.plain.kept.tracks) × (length own.now ≡ length self.now.plain.kept.tracks) × (length entry.now.tracks.items ≡ length self.now.plain.kept.tracks) }
        ensures many { length tracks.new ≡ length tracks.old }
        ensures told { OnOk result (AllTold (learnt_of report.now own.now) self.now.plain.kept (turn_of entry.now) tracks.old tracks.new (length tracks.old)) }
        ensures right { IfOk result (λ right. IsTrue right ↔ LooksRight (turn_of entry.now) tracks.old (length tracks.old)) }
    {
        let mut right = true;
        for i in 0..tracks.len() {
            let found = self.found(entry.ack, track_at(self.mixer.tracks(), i));
            let heard = self.setup.heard(report, own[i], found);
            right &= tell(&mut tracks[i], found, heard, &entry.tracks.as_slice()[i])?;
        }
        Ok(right)
    }

    // The state is pushed, if the push says so.
    fn push(&mut self, push: Push) -> Result<(), Memory>
        ensures pushed { IfOk result (λ done. let x = self.old.plain.kept.draft in self.new ≡ record self.old { last = (if is_pushed push then x else self.old.last); states = self.old.states ++ (if is_pushed push then x ∷ [] else []) }) }
    {
        if let Push::Pushed { .. } = push {
            self.last = *self.mixer.draft();
            self.states.push(self.last)?;
        }
        Ok(())
    }

    // The mixer makes its turn. Answers whether the push answered as it may, and the tracks that are due were mixed.
    fn advance(&mut self, report: &Report, own: &[Heard], entry: &TurnEntry) -> Result<bool, Memory>
        requires judged { IsJudged self.old }
        requires turns { self.old.plain.turns + turn_weight (turn_of entry.now) ≤ 131072 }
        requires own { length own.now ≡ length self.old.plain.kept.tracks }
        requires entry { (length (turn_of entry.now).mixes ≤ most_tracks) × (entry.now.ended ≡ false) }
        ensures judged { IfOk result (λ right. IsJudged self.new) }
        ensures kept { IfOk result (λ right. self.new.plain.kept ≡ turn_after self.old.plain.setup (learnt_of report.now own.now) self.old.plain.kept (turn_of entry.now)) }
        ensures same { IfOk result (λ right. (self.new.setup ≡ self.old.setup) × (self.new.handed ≡ self.old.handed) × (self.new.plain.turns ≡ self.old.plain.turns + turn_weight (turn_of entry.now))) }
        ensures states { IfOk result (λ right. let x = after_edits self.old.plain.setup (learnt_of report.now own.now) (turn_of entry.now) self.old.plain.kept in self.new.states ≡ self.old.states ++ (if is_pushed entry.now.push then x.draft ∷ [] else [])) }
        ensures right { IfOk result (λ right. let e = turn_of entry.now in let x = after_edits self.old.plain.setup (learnt_of report.now own.now) e self.old.plain.kept in
            IsTrue right ↔ (LegalPush x e.push × (map (λ take. take.track) e.mixes ≡ tracks_due self.old.plain.setup e.room x.tracks))) }
    {
        let dirty = self.mixer.is_dirty();
        let pushed = self.mixer.pushed();
        let draft = *self.mixer.draft();
        self.mixer.turn(report, own, entry);
        let to_push = is_to_push(dirty, &draft, self.mixer.draft());
        let legal = is_legal_push(entry.push, to_push, pushed);
        self.push(entry.push)?;
        let takes = entry.mixes.as_slice();
        Ok(legal & self.setup.are_due(entry.room, takes, self.mixer.tracks()))
    }

    // A turn that has ended. Answers whether it is legal.
    fn end(&mut self, report: &Report, own: &[Heard], entry: &TurnEntry) -> bool
        requires judged { IsJudged self.old }
        requires turns { self.old.plain.turns + turn_weight (turn_of entry.now) ≤ 131072 }
        requires own { length own.now ≡ length self.old.plain.kept.tracks }
        ensures judged { IsJudged self.new }
        ensures kept { turn_of entry.now ≡ ended_turn → self.new.plain.kept ≡ record self.old.plain.kept { ended = true } }
        ensures same { (self.new.setup ≡ self.old.setup) × (self.new.handed ≡ self.old.handed) × (self.new.states ≡ self.old.states) × (self.new.plain.turns ≤ self.old.plain.turns + turn_weight (turn_of entry.now)) }
        ensures right { IsTrue result ↔ ((ends_now self.old.plain.kept entry.now.ack ≡ true) × (turn_of entry.now ≡ ended_turn)) }
    {
        if !is_ended_turn(entry) {
            return false;
        }
        let right = self.ends_now(entry.ack);
        self.mixer.turn(report, own, entry);
        right
    }

    // Whether a turn was to go on, and served its tracks as it is due. The mixer makes its turn.
    fn follow(
        &mut self,
        alloc: Global,
        report: &Report,
        own: &[Heard],
        entry: &TurnEntry,
    ) -> Result<bool, Memory>
        requires judged { IsJudged self.old }
        requires turns { self.old.plain.turns + turn_weight (turn_of entry.now) ≤ 131072 }
        requires sizes { (length own.now ≡ length self.old.plain.kept.tracks) × (length entry.now.tracks.items ≡ length self.old.plain.kept.tracks) }
        requires entry { (length (turn_of entry.now).mixes ≤ most_tracks) × (entry.now.ended ≡ false) }
        ensures judged { IfOk result (λ right. IsJudged self.new) }
        ensures kept { IfOk result (λ right. Follows self.old (learnt_of report.now own.now) (turn_of entry.now) self.new) }
        ensures right { IfOk result (λ right. IsTrue right ↔ (Begins self.old.plain.setup report.now self.old.plain.kept (turn_of entry.now) × Serves self.old.plain.setup (learnt_of report.now own.now) self.old.plain.kept (turn_of entry.now))) }
    {
        let begins = self.begins(report, entry);
        let served = self.are_served(alloc, report, own, entry)?;
        let advances = self.advance(report, own, entry)?;
        Ok(begins & served & advances)
    }

    // A turn that went on. Answers whether it is legal.
    fn go_on(
        &mut self,
        alloc: Global,
        tracks: &mut [TrackJudge],
        report: &Report,
        own: &[Heard],
        entry: &TurnEntry,
    ) -> Result<bool, Memory>
        requires judged { IsJudged self.old }
        requires turns { self.old.plain.turns + turn_weight (turn_of entry.now) ≤ 131072 }
        requires sizes { (length tracks.old ≡ length self.old.plain.kept.tracks) × (length entry.now.tracks.items ≡ length self.old.plain.kept.tracks) }
        requires own { own.now ≡ all_known tracks.old }
        requires entry { (entry.now.ended ≡ false) × TracksRise 0 (turn_of entry.now).mixes × (length (turn_of entry.now).mixes ≤ most_tracks) }
        ensures judged { IfOk result (λ right. IsJudged self.new) }
        ensures same { IfOk result (λ right. (self.new.setup ≡ self.old.setup) × (self.new.handed ≡ self.old.handed) × (length tracks.new ≡ length tracks.old)) }
        ensures kept { IfOk result (λ right. Follows self.old (learnt_of report.now own.now) (turn_of entry.now) self.new) }
        ensures told { IfOk result (λ right. IsTold self.old.plain.setup (learnt_of report.now own.now) self.old.plain.kept (turn_of entry.now) tracks.old tracks.new) }
        ensures right { IfOk result (λ right. IsTrue right ↔ RightTurn self.old.plain.setup report.now tracks.old self.old.plain.kept (turn_of entry.now)) }
    {
        let told = self.tell_all(tracks, report, own, entry)?;
        let played = all_taken(self.setup.asked(), tracks, entry.mixes.as_slice())?;
        let follows = self.follow(alloc, report, own, entry)?;
        Ok(told & played & follows)
    }

    /// A turn, by the report that it loaded, over the blocks, in which what it did is noted. Answers whether it is legal. Memory is its only refusal, also if the turns weigh more together than is counted: each weighs 1, and one more for each 64 looks that its longest track has beyond its first 64.
    pub fn turn(
        &mut self,
        alloc: Global,
        tracks: &mut [TrackJudge],
        report: &Report,
        entry: &TurnEntry,
    ) -> Result<bool, Memory>
        requires judged { IsJudged self.old }
        requires tracks { length tracks.old ≡ length self.old.plain.kept.tracks }
        requires form { IsTurn (length tracks.old) (turn_of entry.now) }
        ensures judged { IfOk result (λ right. IsJudged self.new) }
        ensures same { IfOk result (λ right. (self.new.setup ≡ self.old.setup) × (self.new.handed ≡ true) × (length tracks.new ≡ length tracks.old)) }
        ensures follows { IfOk result (λ right. entry.now.ended ≡ false → Follows (record self.old { handed = true }) (learnt_of report.now (all_known tracks.old)) (turn_of entry.now) self.new) }
        ensures ends { IfOk result (λ right. turn_of entry.now ≡ ended_turn → Ends self.old self.new × (tracks.new ≡ tracks.old)) }
        ensures told { IfOk result (λ right. entry.now.ended ≡ false → IsTold self.old.plain.setup (learnt_of report.now (all_known tracks.old)) self.old.plain.kept (turn_of entry.now) tracks.old tracks.new) }
        ensures right { IfOk result (λ right. IsTrue right ↔ IsRight self.old.plain.setup report.now tracks.old self.old.plain.kept (turn_of entry.now)) }
    {
        if !self.has_room(turn_weight(entry)) {
            return Err(Memory);
        }
        self.has_hands = true;
        let own = all_known(alloc, tracks)?;
        if entry.ended {
            return Ok(self.end(report, own.as_slice(), entry));
        }
        self.go_on(alloc, tracks, report, own.as_slice(), entry)
    }
}
