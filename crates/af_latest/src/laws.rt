//! What a history says of the loads.
ghost use Rattle.std.specs.Prelude.{◌≡◌, ◌+◌, ◌≤◌, List, Some};
ghost use Rattle.af_model.specs.NewestValue.{HasValueHistory};
ghost use Rattle.af_model.specs.declared.newest.WriterEvent.{WriterEvent};
ghost use Rattle.af_model.specs.declared.newest.ReaderEvent.{ReaderEvent};
ghost use Rattle.af_latest.specs.Laws.{NeverOlder};

use crate::rule::Latest;
use crate::seats::{Reader, Writer, meet_latest};
use af_base::Steps;
use std::sync::ledger::Ledger;

/// In a history no load is older than one before it, or than what was learnt before it.
pub fn loads_never_fall<T>()
    ensures { (first : T) (ws : List (WriterEvent T)) (rs : List (ReaderEvent T)) → HasValueHistory first ws rs → NeverOlder ws 0 rs }
{}

/// With both ends in one hand, a load after a store and a meeting shows that store.
pub fn store_and_load<T: Copy, L: Ledger>(
    cell: &Latest<T>,
    writer: &mut Writer<T>,
    reader: &mut Reader<T>,
    value: &T,
    steps: &mut Steps<L>,
) -> T
    requires together { (writer.old.cell ≡ cell.now) × (reader.old.cell ≡ cell.now) }
    ensures { (first : T) → writer.old.first ≡ Some first → result ≡ value.now }
{
    writer.store(cell, value, steps);
    meet_latest(cell, writer, reader, steps);
    let found = reader.load(cell, steps);
    meet_latest(cell, writer, reader, steps);
    found
}
