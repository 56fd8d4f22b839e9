//! The log of a play, if one is kept: the end with which the fast mixer's party notes its entries, and the party that reads it.
ghost use Rattle.std.specs.Prelude.{◌≡◌, ◌+◌, ◌-◌, ◌<◌, ◌≤◌, ℕ, false, Some, None, IfOk, MatchOption, OnErr, OnOk, length};
ghost use Rattle.af_base.specs.Log.{entry_at};
ghost use Rattle.af_model.specs.JournalForm.{is_spent};
ghost use Rattle.af_model.specs.Journals.{JournalData};
ghost use Rattle.af_tally.specs.Steps.{most_note};
ghost use Rattle.af_side_by_side.specs.Logging.{AppendsLog, AreEnds, BeginsLog, HasAudited, HasLogged, HasLogOf, HasMetLog, HasReadAll, IsAuditor, IsScribe};

use af_base::{Items, Memory, Steps};
use af_cblk::Block;
use af_fast::FastMixer;
use af_io::Gate;
use af_nblog::{Note, NoteReader, NoteWriter, meet_notes, note_of, ring};
use std::alloc::Global;
use std::marker::{Brand, Model};
use std::sync::ledger::{Blank, Ledger};

/// The end of a log in the hands of the fast mixer's party; none if no log is kept.
#[derive(Drop)]
pub struct Scribe {
    pub(crate) end: Option<NoteWriter>,
}

impl Model for Scribe {
    ghost use Rattle.af_side_by_side.specs.Logging.{ScribeState};

    ghost Value = { ScribeState };

    ghost view = { λ s. record { end = s.end } };
}

/// The party that reads a log, with the notes that it read; none if no log is kept.
#[derive(Drop)]
pub struct Auditor {
    pub(crate) end: Option<NoteReader>,
    pub(crate) room: u32,
    pub(crate) notes: Items<Note>,
}

impl Model for Auditor {
    ghost use Rattle.af_side_by_side.specs.Logging.{AuditorState};

    ghost Value = { AuditorState };

    ghost view = { λ a. record { end = a.end; room = a.room; notes = a.notes } };
}

/// The log of a play: its block, if one is kept, and the two parties' ends.
#[derive(Drop)]
pub struct Logging {
    pub(crate) log: Option<Block>,
    pub(crate) scribe: Scribe,
    pub(crate) auditor: Auditor,
}

impl Model for Logging {
    ghost use Rattle.af_side_by_side.specs.Logging.{LoggingState};

    ghost Value = { LoggingState };

    ghost view = { λ l. record { log = l.log; scribe = l.scribe; auditor = l.auditor } };
}

impl Logging {
    /// The log of a play that keeps none. Memory is its only refusal.
    pub fn none(alloc: Global) -> Result<Self, Memory>
        ensures { (cycles : ℕ) → IfOk result (BeginsLog None cycles) }
    {
        let notes = Items::with_room(alloc, 0)?;
        Ok(Logging {
            log: None,
            scribe: Scribe { end: None },
            auditor: Auditor {
                end: None,
                room: 0,
                notes,
            },
        })
    }

    /// A log with room for `room` notes, of a mixer that makes at most so many cycles. Memory is its only refusal.
    pub fn of(alloc: Global, room: u32, cycles: u32) -> Result<Self, Memory>
        requires some { 1 ≤ room }
        requires few { room ≤ 1024 }
        ensures { IfOk result (BeginsLog (Some room) cycles) }
    {
        let notes = Items::with_room(alloc, cycles as usize + room as usize)?;
        let (block, writer, reader) = ring(alloc, room)?;
        Ok(Logging {
            log: Some(block),
            scribe: Scribe { end: Some(writer) },
            auditor: Auditor {
                end: Some(reader),
                room,
                notes,
            },
        })
    }

    /// The two ends meet, if a log is kept.
    pub(crate) fn meet<L: Ledger>(&mut self, steps: &mut Steps<L>)
        requires ends { AreEnds self.old }
        ensures met { HasMetLog self.old self.new }
    {
        let Logging {
            log,
            scribe,
            auditor,
        } = self;
        let Some(block) = log else {
            return;
        };
        let Some(writer) = &mut scribe.end else {
            return;
        };
        let Some(reader) = &mut auditor.end else {
            return;
        };
        meet_notes(block, writer, reader, steps);
    }

    // The auditor drains what is left, and the ends meet after that: so all notes that were accepted are then read.
    fn finish<L: Ledger>(&mut self, blank: Blank)
        requires ledger { (blank.name ≡ L.name) × (blank.parts ≡ L.parts) × (0 < blank.parts) }
        requires told { (frames : ℕ) × (room : ℕ) × (journal : JournalData) × HasLogOf frames room journal self.old }
        ensures { (frames room : ℕ) (journal : JournalData) (l : HasLogOf frames room journal self.old) → HasReadAll l.ends.writer self.new }
    {
        self.auditor.read_in::<Brand>(Blank::new(1), &self.log);
        let mut steps = Steps::<L>::start(blank);
        self.meet(&mut steps);
    }

    /// Drains what is left of a log, and appends its text. Memory is its only refusal; `text` is then as before.
    pub fn write(&mut self, alloc: Global, text: &mut Vec<u8>) -> Result<(), Memory>
        requires told { (frames : ℕ) × (room : ℕ) × (journal : JournalData) × HasLogOf frames room journal self.old }
        ensures written { (n r : ℕ) (j : JournalData) (l : HasLogOf n r j self.old) → OnOk result (AppendsLog l.ends.writer text.old.items text.new.items) }
        ensures kept { OnErr result (text.new.items ≡ text.old.items) }
    {
        self.finish::<Brand>(Blank::new(1));
        let refused = self.scribe.refused();
        af_nblog::write(alloc, self.auditor.notes.as_slice(), refused, text)
    }
}

impl Scribe {
    // How many notes were refused; 0 if no log is kept.
    fn refused(&self) -> u64
        ensures { MatchOption self.now.end (result ≡ 0) (λ w. result ≡ w.refused) }
    {
        match &self.end {
            Some(end) => end.refused(),
            None => 0,
        }
    }

    /// Notes the entry that the mixer added last, if a log is kept, in ten steps at most.
    pub(crate) fn note_last<L: Ledger>(
        &mut self,
        log: &Option<Block>,
        fast: &FastMixer,
        frames: u32,
        steps: &mut Steps<L>,
    )
        requires some { 0 < length fast.now.log.entries }
        requires few { length fast.now.log.entries ≤ 100000 }
        requires kept { is_spent (entry_at fast.now.log.entries (length fast.now.log.entries - 1)).cycle ≡ false }
        requires frames { frames ≡ fast.now.frames }
        requires scribe { IsScribe log.now (length fast.now.log.entries - 1) self.old }
        ensures scribe { IsScribe log.now (length fast.now.log.entries) self.new }
        ensures logged { HasLogged (length fast.now.log.entries - 1) fast.now self.old self.new }
        ensures steps { steps.new ≤ steps.old + most_note }
    {
        let Some(block) = log else {
            return;
        };
        let Some(end) = &mut self.end else {
            return;
        };
        let entries = fast.log();
        let place = entries.len() - 1;
        let Some(entry) = entries.entry(place) else {
            unreachable!()
        };
        end.note(block, note_of(place as u64, entry, frames), steps);
    }
}

impl Auditor {
    // Reads until it sees no note left, or has read as many notes as there is room for.
    fn read_in<L: Ledger>(&mut self, blank: Blank, log: &Option<Block>)
        requires ledger { (blank.name ≡ L.name) × (blank.parts ≡ L.parts) × (0 < blank.parts) }
        requires can { IsAuditor log.now self.old }
        ensures { HasAudited self.old self.new }
    {
        let mut steps = Steps::<L>::start(blank);
        let Some(block) = log else {
            return;
        };
        let Some(end) = &mut self.end else {
            return;
        };
        end.drain(block, self.room, &mut self.notes, &mut steps);
    }

    /// A turn of the party that reads, of this number: none if no log is kept.
    pub(crate) fn turn<G: Gate>(&mut self, log: &Option<Block>, party: u32, gate: &G)
        requires { IsAuditor log.now self.old }
        ensures { HasAudited self.old self.new }
    {
        if self.end.is_some() {
            gate.enter(party);
        }
        self.read_in::<Brand>(Blank::new(1), log);
    }
}
