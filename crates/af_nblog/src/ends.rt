//! The two ends of a log of notes, how they are made, and how they meet.
ghost use Rattle.std.specs.Prelude.{◌≡◌, ℕ, ◌+◌, ◌*◌, ◌≤◌, ◌++◌, ◌∷◌, All, Bool, IfOk, List, [], length};
ghost use Rattle.af_base.specs.declared.event.ServerEvent.TheVariants as server_event;
ghost use Rattle.af_model.specs.PipeHistory.{HasPipeHistory};
ghost use Rattle.af_cblk.specs.Parts.{client_met, server_did};
ghost use Rattle.af_cblk.specs.Rule.{new_client, new_server};
ghost use Rattle.af_cblk.specs.Shape.{IsShape};
ghost use Rattle.af_nblog.specs.declared.entries.Note.{Note as SomeNote};
ghost use Rattle.af_nblog.specs.NoteFronts.{SeesRead};
ghost use Rattle.af_nblog.specs.NoteRears.{SeesPut};
ghost use Rattle.af_nblog.specs.NoteEnds.{WriterState as Writing, ReaderState as Reading, writer_made, reader_made, accepted, read, AreInOrder};
ghost use Rattle.af_nblog.specs.NoteRounds.{HasDrained, HasNoted, IsBetween, count_accepted};

use af_base::{Memory, Steps};
use af_cblk::Block;
use af_link::{PipeIn, PipeOut, meet_pipe, pipe};
use std::alloc::Global;
use std::marker::Model;
use std::sync::ledger::Ledger;

/// The end of the log into which notes are put (AOSP's NBLog::Writer). It waits for nobody, and refuses what finds no room.
///
/// Contracts see its pass, with the list of all events and of the words put so far, and how many notes were refused. It notes and meets, and does nothing else on the block.
#[derive(Drop)]
pub struct NoteWriter {
    pub(crate) puts: PipeIn,
    // How many notes were accepted, and how many refused.
    pub(crate) sent: u64,
    pub(crate) refused: u64,
    // For how many there is room in all.
    pub(crate) room: u32,
}

impl Model for NoteWriter {
    ghost use Rattle.af_nblog.specs.NoteEnds.{WriterState, IsNoting};

    ghost Value = { WriterState };

    ghost view = { λ w. record { pass = w.puts.pass; refused = w.refused } };

    ghost invariant = { λ w. IsNoting w.puts.pass.part w.sent w.room };
}

/// The end of the log from which notes are read (AOSP's NBLog::Reader).
///
/// Contracts see its pass, with the list of all events and of the words taken so far. It reads and meets, and does nothing else on the block.
#[derive(Drop)]
pub struct NoteReader {
    pub(crate) takes: PipeOut,
}

impl Model for NoteReader {
    ghost use Rattle.af_nblog.specs.NoteEnds.{ReaderState, IsReading};

    ghost Value = { ReaderState };

    ghost view = { λ r. record { pass = r.takes.pass } };

    ghost invariant = { λ r. IsReading r.takes.pass.part };
}

/// An empty log for `room` notes, from 1 to 1024, and its two ends. Each begins with no events. Memory is its only refusal.
pub fn ring(alloc: Global, room: u32) -> Result<(Block, NoteWriter, NoteReader), Memory>
    requires some { 1 ≤ room }
    requires few { room ≤ 1024 }
    ensures size { IfOk result (λ r. (r.0.shape.frames ≡ 8 * room) × (r.0.shape.base ≡ 0) × (r.0.shape.wrap ≡ 0) × IsShape r.0.shape) }
    ensures made { IfOk result (λ r. (writer_made r.1 ≡ r.0) × (reader_made r.2 ≡ r.0)) }
    ensures parts { IfOk result (λ r. (r.1.pass.part ≡ new_client r.0.shape) × (r.2.pass.part ≡ new_server r.0.shape)) }
    ensures empty { IfOk result (λ r. (accepted r.1 ≡ []) × (r.1.refused ≡ 0) × (read r.2 ≡ [])) }
    ensures between { IfOk result (λ r. IsBetween room [] r.1 r.2) }
{
    let (block, puts, takes) = pipe(alloc, 8 * room)?;
    let writer = NoteWriter {
        puts,
        sent: 0,
        refused: 0,
        room,
    };
    Ok((block, writer, NoteReader { takes }))
}

/// Each end learns what the other has done so far: all of it stands before its own next event. It appends Learn to each list, in five steps.
///
/// Whatever the order in which their steps came, the two ends' lists have a history of the pipe, and the notes read and the notes left are together the notes accepted, in order. Each front that the writer saw is that of a number of notes read by then: no fewer than before a meeting that stands before it, and no more than those accepted by then. By it there lie in the log the notes accepted and not read, no more than there is room for. Each rear that the reader saw is that of what was accepted by then, and no less than before a meeting that stands before it.
///
/// If the ends meet in rounds, in each of which the reader goes on until it sees no note left or has read as many as there is room for, a note is refused only if the notes accepted before it, in its round and in the round before, are at least as many as there is room for; and none is, if no round has more than half as many notes.
pub fn meet_notes<L: Ledger>(
    block: &Block,
    writer: &mut NoteWriter,
    reader: &mut NoteReader,
    steps: &mut Steps<L>,
)
    requires made { (writer_made writer.old ≡ block.now) × (reader_made reader.old ≡ block.now) }
    ensures made { (writer_made writer.new ≡ block.now) × (reader_made reader.new ≡ block.now) }
    ensures writer { writer.new ≡ (record writer.old { pass = record writer.old.pass { part = client_met writer.old.pass.part reader.old.pass.part.events } }) }
    ensures reader { reader.new ≡ (record reader.old { pass = record reader.old.pass { part = server_did reader.old.pass.part (server_event.Learn (length writer.old.pass.part.events)) } }) }
    ensures kept { (accepted writer.new ≡ accepted writer.old) × (writer.new.refused ≡ writer.old.refused) × (read reader.new ≡ read reader.old) }
    ensures history { HasPipeHistory block.now.shape.frames writer.new.pass.part.events writer.new.pass.part.frames reader.new.pass.part.events reader.new.pass.part.frames }
    ensures order { AreInOrder (accepted writer.new) (read reader.new) }
    ensures fronts { SeesRead block.now.shape.frames reader.new.pass.part.events 0 0 writer.new.pass.part.events }
    ensures rears { SeesPut block.now.shape.frames writer.new.pass.part.events 0 0 reader.new.pass.part.events }
    ensures rounds { (room : ℕ) (rounds : List (List Bool)) (round : List Bool) (notes : List SomeNote) (w : Writing) (r : Reading) → block.now.shape.frames ≡ 8 * room
        → IsBetween room rounds w r → HasNoted w.pass.part round writer.old.pass.part → HasDrained room r.pass notes reader.old.pass → IsBetween room (rounds ++ round ∷ []) writer.new reader.new }
    ensures none { (room most : ℕ) (rounds : List (List Bool)) → IsBetween room rounds writer.new reader.new → 2 * most ≤ room → All (λ round. length round ≤ most) rounds → All (λ round. count_accepted round ≡ length round) rounds }
    ensures steps { steps.new ≡ steps.old + 5 }
{
    meet_pipe(block, &mut writer.puts, &mut reader.takes, steps);
}
