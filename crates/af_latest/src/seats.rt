//! The two ends.
ghost use Rattle.std.specs.Prelude.{◌≡◌, ℕ, ◌+◌, [], ◌∷◌, ◌++◌, length, IfOk, Some};
ghost use Rattle.af_latest.specs.Rule.{IsWriter, IsReader};
ghost use Rattle.af_latest.specs.Ends.{Stores, Loads, last_number, load_steps};
ghost use Rattle.af_model.specs.NewestValue.{HasValueHistory};
ghost use Rattle.af_model.specs.declared.newest.WriterEvent.TheVariants as writes;
ghost use Rattle.af_model.specs.declared.newest.ReaderEvent.TheVariants as reads;

use crate::plays::{Fetch, Look, Meet, Part, SitReader, SitWriter, Store};
use crate::rule::Latest;
use crate::view::View;
use af_base::{Memory, Steps};
use atomic_table::{Seat, Table};
use std::alloc::Global;
use std::marker::Model;
use std::sync::ledger::Ledger;

/// The end that stores. Contracts see its cell, the cell's first content, and the list of its events.
#[derive(Drop)]
pub struct Writer<T> {
    seat: Seat<T, View<T>>,
    slot: usize,
}

impl<T> Model for Writer<T> {
    ghost use Rattle.af_latest.specs.Rule.{IsWriter};
    ghost use Rattle.af_latest.specs.Ends.{Stores};

    ghost Value = { Stores T };

    ghost view = { λ w. record { cell = w.seat.table_id; first = w.seat.me.0.writing.first; events = w.seat.me.0.writing.events } };

    ghost invariant = { λ w. IsWriter w.seat.me w.slot };
}

/// The end that loads. Contracts see its cell and the list of its events.
#[derive(Drop)]
pub struct Reader<T> {
    seat: Seat<T, View<T>>,
    slot: usize,
}

impl<T> Model for Reader<T> {
    ghost use Rattle.af_latest.specs.Rule.{IsReader};
    ghost use Rattle.af_latest.specs.Ends.{Loads};

    ghost Value = { Loads T };

    ghost view = { λ r. record { cell = r.seat.table_id; events = r.seat.me.0.reading.events } };

    ghost invariant = { λ r. IsReader r.seat.me r.slot };
}

/// A cell with its two ends, whose first content is `first`. Memory is its only refusal.
pub fn latest<T: Copy>(alloc: Global, first: T) -> Result<(Latest<T>, Writer<T>, Reader<T>), Memory>
    ensures together { IfOk result (λ l. (l.1.cell ≡ l.0) × (l.2.cell ≡ l.0)) }
    ensures first { IfOk result (λ l. l.1.first ≡ Some first) }
    ensures lists { IfOk result (λ l. (l.1.events ≡ []) × (l.2.events ≡ [])) }
{
    let Ok(mut slots) = Vec::with_capacity(alloc, 3) else {
        return Err(Memory);
    };
    slots.push_reserved(first);
    slots.push_reserved(first);
    slots.push_reserved(first);
    let Ok((table, mut seat)) = Table::new(alloc, &[2], slots, &first) else {
        return Err(Memory);
    };
    let mut other = table.shared.split_seat::<Part>(&mut seat);
    table.shared.load::<SitWriter>(&mut seat, 0);
    table.shared.load::<SitReader>(&mut other, 0);
    let writer = Writer { seat, slot: 0 };
    let reader = Reader {
        seat: other,
        slot: 1,
    };
    Ok((Latest { table }, writer, reader))
}

impl<T: Copy> Writer<T> {
    /// Stores a copy of `value`. It takes one step, takes no memory and never refuses.
    pub fn store<L: Ledger>(&mut self, cell: &Latest<T>, value: &T, steps: &mut Steps<L>)
        requires together { self.old.cell ≡ cell.now }
        ensures together { (self.new.cell ≡ self.old.cell) × (self.new.first ≡ self.old.first) }
        ensures list { self.new.events ≡ self.old.events ++ writes.Store value.now ∷ [] }
        ensures steps { steps.new ≡ steps.old + 1 }
    {
        *self.seat.slot_mut(&cell.table.shared, self.slot) = *value;
        steps.tick();
        let word = cell
            .table
            .shared
            .swap::<Store>(&mut self.seat, 0, self.slot as u64 + 4);
        self.slot = (word % 4) as usize;
    }
}

impl<T: Copy> Reader<T> {
    /// The last value stored at the place of this load in the order of stores and loads. It takes one step, and one more if the value is another than at the load before. It takes no memory and never refuses.
    pub fn load<L: Ledger>(&mut self, cell: &Latest<T>, steps: &mut Steps<L>) -> T
        requires together { self.old.cell ≡ cell.now }
        ensures together { self.new.cell ≡ self.old.cell }
        ensures list { (n : ℕ) × (self.new.events ≡ self.old.events ++ reads.Load n result ∷ []) × (steps.new ≡ steps.old + load_steps (last_number 0 self.old.events) n) }
    {
        steps.tick();
        if cell.table.shared.load::<Look>(&mut self.seat, 0) >= 4 {
            steps.tick();
            let word = cell
                .table
                .shared
                .swap::<Fetch>(&mut self.seat, 0, self.slot as u64);
            self.slot = (word % 4) as usize;
        }
        *self.seat.slot_mut(&cell.table.shared, self.slot)
    }
}

/// Each end learns that the other's list so far stands in the history before its own next event. The lists have a history as they stood before, and with what was learnt. It takes five steps.
pub fn meet_latest<T: Copy, L: Ledger>(
    cell: &Latest<T>,
    writer: &mut Writer<T>,
    reader: &mut Reader<T>,
    steps: &mut Steps<L>,
)
    requires together { (writer.old.cell ≡ cell.now) × (reader.old.cell ≡ cell.now) }
    ensures together { (writer.new.cell ≡ writer.old.cell) × (writer.new.first ≡ writer.old.first) × (reader.new.cell ≡ reader.old.cell) }
    ensures before { (first : T) → writer.old.first ≡ Some first → HasValueHistory first writer.old.events reader.old.events }
    ensures history { (first : T) → writer.old.first ≡ Some first → HasValueHistory first writer.new.events reader.new.events }
    ensures writer { writer.new.events ≡ writer.old.events ++ writes.Learn (length reader.old.events) ∷ [] }
    ensures reader { reader.new.events ≡ reader.old.events ++ reads.Learn (length writer.old.events) ∷ [] }
    ensures steps { steps.new ≡ steps.old + 5 }
{
    let shared = &cell.table.shared;
    steps.tick();
    let part = shared.split_seat::<Part>(&mut reader.seat);
    steps.tick();
    shared.join_seat::<Part>(&mut writer.seat, part);
    steps.tick();
    shared.load::<Meet>(&mut writer.seat, 0);
    steps.tick();
    let part = shared.split_seat::<Part>(&mut writer.seat);
    steps.tick();
    shared.join_seat::<Part>(&mut reader.seat, part);
}
