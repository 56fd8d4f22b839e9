//! Journals: what each party of a run saw and did, round by round.
ghost use Rattle.std.specs.Prelude.{◌≡◌, ◌+◌, ◌<◌, ◌≤◌, ◌^◌, [], ◌∷◌, ◌++◌, length, map, take, All, IfOk, OnErr, MatchOption, slice_index_or};
ghost use Rattle.std.specs.Option.{option_map};
ghost use Rattle.af_base.specs.Log.{Logged};
ghost use Rattle.af_base.specs.Turn.{turn_of};
ghost use Rattle.af_model.specs.Journals.{calls_at, cycles_of, entries_of, entries_seen, frames_of, journal_of, round_at};
ghost use Rattle.af_model.specs.JournalForm.{IsJournal, IsWhole};
ghost use Rattle.af_model.specs.Noting.{none_noted, round_noted};
ghost use Rattle.af_model.specs.Numbers.{FitTurns, HasRanges};

use crate::numbers::{know_clients, know_log, know_turns, know_word};
use af_base::{ClientCall, FastLog, Memory, TurnEntry};
use std::alloc::Global;
use std::marker::Model;

// A round as it is noted: its entries are those of the log from `first` on.
#[derive(Drop)]
struct Round {
    calls: Vec<Vec<ClientCall>>,
    turn: Option<TurnEntry>,
    first: usize,
    cycles: usize,
}

// The numbers of a round's calls and of its turn.
fn know_round(round: &Round)
    ensures { FitTurns (round_noted round.now).calls (round_noted round.now).turn }
{
    know_clients(round.calls.as_slice());
    know_turns(round.turn.as_ref());
}

/// The rounds of a run so far. The entries of the fast mixer's cycles stand in its log, and only their numbers here.
#[derive(Drop)]
pub struct Rounds {
    tracks: u32,
    rounds: Vec<Round>,
    cycles: usize,
}

impl Model for Rounds {
    ghost use Rattle.std.specs.Prelude.{◌≡◌, ◌*◌, map};
    ghost use Rattle.af_model.specs.Journals.{RoundsNoted, cycles_of};
    ghost use Rattle.af_model.specs.Noting.{round_noted, Follow};

    ghost Value = { RoundsNoted };

    ghost view = { λ r. record { tracks = r.tracks; rounds = map round_noted r.rounds.items } };

    ghost invariant = { λ r. Follow 0 r.rounds.items × (r.cycles ≡ cycles_of (map round_noted r.rounds.items)) };
}

impl Rounds {
    // How many rounds were noted.
    fn len(&self) -> usize
        ensures { result ≡ length self.now.rounds }
    {
        self.rounds.len()
    }

    /// No rounds yet, of so many tracks.
    pub fn new(alloc: Global, tracks: u32) -> Rounds
        ensures { result ≡ record { tracks = tracks; rounds = [] } }
    {
        Rounds {
            tracks,
            rounds: Vec::new(alloc),
            cycles: 0,
        }
    }

    // A round, with the place of its first entry.
    fn round(&self, round: usize) -> &Round
        requires { round < length self.now.rounds }
        ensures noted { round_noted result.now ≡ slice_index_or self.now.rounds round none_noted }
        ensures first { result.now.first ≡ cycles_of (take round self.now.rounds) }
    {
        &self.rounds[round]
    }

    /// Notes a round: the calls of each client, in order of tracks, the normal mixer's turn if it made one, and how many entries the fast mixer added. Memory is its only refusal; the rounds are then as before.
    pub fn push(
        &mut self,
        calls: Vec<Vec<ClientCall>>,
        turn: Option<TurnEntry>,
        cycles: usize,
    ) -> Result<(), Memory>
        requires few { cycles_of self.old.rounds + cycles < 2 ^ 62 }
        ensures noted { IfOk result (λ _. self.new ≡ record self.old { rounds = self.old.rounds ++ record { calls = map (λ c. c.items) calls.items; turn = option_map turn_of turn; cycles = cycles } ∷ [] }) }
        ensures kept { OnErr result (self.new ≡ self.old) }
    {
        let first = self.cycles;
        self.rounds.push(Round {
            calls,
            turn,
            first,
            cycles,
        })?;
        self.cycles += cycles;
        Ok(())
    }

    // The numbers of all rounds' calls and turns.
    fn know_rounds(&self)
        ensures { All (λ r. FitTurns r.calls r.turn) self.now.rounds }
    {
        for i in 0..self.len() {
            know_round(self.round(i));
        }
    }

    /// The numbers of these rounds, and of the log of their cycles, lie in the ranges of their fields: they are read to know it.
    pub fn know_numbers(&self, log: &FastLog)
        ensures { HasRanges (journal_of self.now log.now) }
    {
        know_word(self.tracks);
        self.know_rounds();
        know_log(log);
    }
}

/// What each party of a run saw and did, round by round, legal or not.
///
/// The log's entries are those of the rounds in order. Each has the slots of a mix or none, and none tells of a full log. A turn has seen each track once, unless the mixer had ended; it takes of tracks in rising order, as many frames as each look shows. All numbers lie in the ranges of their fields.
#[derive(Drop)]
pub struct Journal {
    noted: Rounds,
    log: FastLog,
}

impl Model for Journal {
    ghost use Rattle.af_model.specs.Journals.{JournalData, journal_of};
    ghost use Rattle.af_model.specs.JournalForm.{IsJournal, IsWhole};

    ghost Value = { JournalData };

    ghost view = { λ j. journal_of j.noted j.log };

    ghost invariant = { λ j. IsWhole j.noted j.log × IsJournal (journal_of j.noted j.log) };
}

impl Journal {
    /// The journal of some rounds and the log of their cycles.
    pub fn new(noted: Rounds, log: FastLog) -> Journal
        requires whole { IsWhole noted log }
        requires form { IsJournal (journal_of noted log) }
        ensures { result ≡ journal_of noted log }
    {
        Journal { noted, log }
    }

    /// How many rounds there are.
    pub fn rounds(&self) -> usize
        ensures { result ≡ length self.now.rounds }
    {
        self.noted.len()
    }

    /// How many tracks there are.
    pub fn tracks(&self) -> u32
        ensures { result ≡ self.now.tracks }
    {
        self.noted.tracks
    }

    /// The calls of a client in a round, in order; none if it had no turn.
    pub fn client(&self, round: usize, track: u32) -> &[ClientCall]
        requires round { round < length self.now.rounds }
        requires track { track < self.now.tracks }
        ensures { result.now ≡ calls_at self.now round track }
    {
        self.noted.round(round).calls[track as usize].as_slice()
    }

    /// The normal mixer's turn in a round; None if it had none.
    pub fn turn(&self, round: usize) -> Option<&TurnEntry>
        requires round { round < length self.now.rounds }
        ensures { option_map (λ e. turn_of e.now) result ≡ (round_at self.now round).turn }
    {
        self.noted.round(round).turn.as_ref()
    }

    /// The place of a round's first entry in the log, and how many entries the fast mixer added in it.
    pub fn cycles(&self, round: usize) -> (usize, usize)
        requires round { round < length self.now.rounds }
        ensures first { result.0 ≡ length (entries_of (take round self.now.rounds)) }
        ensures count { result.1 ≡ length (round_at self.now round).entries }
    {
        let round = self.noted.round(round);
        (round.first, round.cycles)
    }

    /// The log of all entries, with the frames that they took. The clause `form` says what every journal keeps.
    pub fn log(&self) -> &FastLog
        ensures entries { map (λ e. e.entry) (entries_of self.now.rounds) ≡ result.now.entries }
        ensures frames { frames_of (entries_of self.now.rounds) ≡ result.now.frames }
        ensures form { IsJournal self.now }
    {
        &self.log
    }
}
