//! The report's cell and its two ends.
ghost use Rattle.std.specs.Prelude.{◌≡◌, ℕ, ◌+◌, ◌<◌, [], ◌∷◌, ◌++◌, length, IfOk};
ghost use Rattle.af_model.specs.NewestValue.{HasValueHistory};
ghost use Rattle.af_model.specs.Reports.{no_slot};
ghost use Rattle.af_model.specs.declared.newest.WriterEvent.TheVariants as writes;
ghost use Rattle.af_model.specs.declared.newest.ReaderEvent.TheVariants as reads;
ghost use Rattle.af_latest.specs.Ends.{last_number, load_steps};
ghost use Rattle.af_link.specs.Reports.{no_report, last_cycle, CyclesNeverFall};

use af_base::{Memory, Report, SLOTS, SlotReport, Steps};
use af_latest::{Latest, Reader, Writer, latest, meet_latest};
use std::alloc::Global;
use std::marker::Model;
use std::sync::ledger::Ledger;

/// What the two ends of the report share: the newest report, which the fast mixer stores and the normal mixer loads. Contracts see which cell it is.
#[derive(Drop)]
pub struct ReportCell {
    cell: Latest<Report>,
}

impl Model for ReportCell {
    ghost use Rattle.atomic_table.specs.Seated.{TableId};

    ghost Value = { TableId };

    ghost view = { λ r. r.cell };
}

/// The end that stores reports, each of a later cycle than the one before. Contracts see its cell and the list of its events.
#[derive(Drop)]
pub struct ReportWriter {
    writer: Writer<Report>,
}

impl Model for ReportWriter {
    ghost use Rattle.af_link.specs.Reports.{WriterSide, IsReportWriter};

    ghost Value = { WriterSide };

    ghost view = { λ w. record { cell = w.writer.cell; events = w.writer.events } };

    ghost invariant = { λ w. IsReportWriter w.writer };
}

/// The end that loads reports. Contracts see its cell and the list of its events.
#[derive(Drop)]
pub struct ReportReader {
    reader: Reader<Report>,
}

impl Model for ReportReader {
    ghost use Rattle.af_link.specs.Reports.{ReaderSide};

    ghost Value = { ReaderSide };

    ghost view = { λ r. record { cell = r.reader.cell; events = r.reader.events } };
}

/// What is known of a slot that never had an item: all zeros.
pub fn no_slot() -> SlotReport
    ensures { result ≡ no_slot }
{
    SlotReport {
        consumed: 0,
        shut: false,
        generation: 0,
        flush_seen: 0,
        fulls: 0,
        partials: 0,
        empties: 0,
    }
}

/// The report before any cycle, of cycle 0: all zeros.
pub fn first_report() -> Report
    ensures { result ≡ no_report }
{
    Report {
        cycle: 0,
        slots: [no_slot(); SLOTS],
    }
}

/// A cell whose first report is of cycle 0 and all zeros, with its two ends. Memory is its only refusal.
pub fn report(alloc: Global) -> Result<(ReportCell, ReportWriter, ReportReader), Memory>
    ensures together { IfOk result (λ r. (r.1.cell ≡ r.0) × (r.2.cell ≡ r.0)) }
    ensures lists { IfOk result (λ r. (r.1.events ≡ []) × (r.2.events ≡ [])) }
{
    let (cell, writer, reader) = latest(alloc, first_report())?;
    Ok((
        ReportCell { cell },
        ReportWriter { writer },
        ReportReader { reader },
    ))
}

impl ReportWriter {
    /// Stores a report, of a later cycle than the last one stored. It appends Store. One step.
    pub fn store<L: Ledger>(&mut self, cell: &ReportCell, report: &Report, steps: &mut Steps<L>)
        requires together { self.old.cell ≡ cell.now }
        requires later { last_cycle self.old.events < report.now.cycle }
        ensures together { self.new.cell ≡ self.old.cell }
        ensures list { self.new.events ≡ self.old.events ++ writes.Store report.now ∷ [] }
        ensures last { last_cycle self.new.events ≡ report.now.cycle }
        ensures steps { steps.new ≡ steps.old + 1 }
    {
        self.writer.store(&cell.cell, report, steps);
    }
}

impl ReportReader {
    /// The last report stored at the place of this load in the order of stores and loads, whole. It appends Load with the number of that store. One step, and one more if the report is another than at the load before.
    pub fn load<L: Ledger>(&mut self, cell: &ReportCell, steps: &mut Steps<L>) -> Report
        requires { self.old.cell ≡ cell.now }
        ensures together { self.new.cell ≡ self.old.cell }
        ensures list { (n : ℕ) × (self.new.events ≡ self.old.events ++ reads.Load n result ∷ []) × (steps.new ≡ steps.old + load_steps (last_number 0 self.old.events) n) }
    {
        self.reader.load(&cell.cell, steps)
    }
}

/// Each end learns that the other's list so far stands in the history before its own next event. It appends Learn to each list, in five steps.
///
/// Whatever the order in which their steps came, the two ends' lists have a history, with these Learns, in which no load shows an earlier cycle than one before it, or than what was learnt before it.
pub fn meet_report<L: Ledger>(
    cell: &ReportCell,
    writer: &mut ReportWriter,
    reader: &mut ReportReader,
    steps: &mut Steps<L>,
)
    requires together { (writer.old.cell ≡ cell.now) × (reader.old.cell ≡ cell.now) }
    ensures together { (writer.new.cell ≡ writer.old.cell) × (reader.new.cell ≡ reader.old.cell) }
    ensures history { HasValueHistory no_report writer.new.events reader.new.events }
    ensures never_older { CyclesNeverFall writer.new.events 0 reader.new.events }
    ensures writer { writer.new.events ≡ writer.old.events ++ writes.Learn (length reader.old.events) ∷ [] }
    ensures reader { reader.new.events ≡ reader.old.events ++ reads.Learn (length writer.old.events) ∷ [] }
    ensures steps { steps.new ≡ steps.old + 5 }
{
    meet_latest(&cell.cell, &mut writer.writer, &mut reader.reader, steps);
}
