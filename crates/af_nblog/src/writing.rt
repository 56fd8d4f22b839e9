//! Noting.
ghost use Rattle.std.specs.Prelude.{◌≡◌, ◌+◌, ◌^◌, ◌<◌, ◌++◌, length};
ghost use Rattle.af_nblog.specs.NoteEnds.{writer_made, accepted, NotedBy, kept, refusals, note_steps};

use crate::ends::NoteWriter;
use crate::entries::Note;
use crate::words::frames_of;
use af_base::Steps;
use af_cblk::Block;
use std::sync::ledger::Ledger;

/// What came of a note.
#[derive(Clone, Copy, Debug, PartialEq, Eq)]
pub enum Noted {
    /// The note was accepted.
    Sent,
    /// There was no room. So many notes were accepted so far, and the front seen shows so many of them taken.
    Refused { sent: u64, known: u64 },
}

impl NoteWriter {
    /// Notes without waiting. It looks at the front, and puts the note if that leaves room. If the notes accepted and not taken by that front are as many as there is room for, nothing is put, and the note is counted as refused. The notes are fewer than 2^62 in all.
    pub fn note<L: Ledger>(&mut self, block: &Block, note: Note, steps: &mut Steps<L>) -> Noted
        requires made { writer_made self.old ≡ block.now }
        requires few { length (accepted self.old) + self.old.refused < 2 ^ 62 }
        ensures made { writer_made self.new ≡ block.now }
        ensures noted { NotedBy self.old.pass.part note result self.new.pass.part }
        ensures notes { accepted self.new ≡ accepted self.old ++ kept result note }
        ensures refused { self.new.refused ≡ self.old.refused + refusals result }
        ensures each { length (accepted self.new) + self.new.refused ≡ length (accepted self.old) + self.old.refused + 1 }
        ensures steps { steps.new ≡ steps.old + note_steps result }
    {
        if self.puts.room(block, steps) < 8 {
            self.refused += 1;
            return Noted::Refused {
                sent: self.sent,
                known: self.sent.saturating_sub(u64::from(self.room)),
            };
        }
        self.puts.put(block, &frames_of(note), steps);
        self.sent += 1;
        Noted::Sent
    }

    /// How many notes were refused.
    pub fn refused(&self) -> u64
        ensures { result ≡ self.now.refused }
    {
        self.refused
    }
}
