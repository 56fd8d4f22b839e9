//! The table of a cell, and its rule.
ghost use Rattle.std.specs.Prelude.{◌≡◌};
ghost use Rattle.atomic_table.specs.Seated.{TableId};

use crate::view::View;
use atomic_table::{Table, TableRule};
use std::alloc::Global;
use std::marker::Model;

/// The rule under which the three slots change hands.
pub struct Newest;

impl<T> TableRule<T, View<T>, T> for Newest {
    ghost use Rattle.af_latest.specs.Rule.{Kept, starting};

    ghost holds = { Kept };

    ghost first = { starting };
}

/// What the writer and the reader share. Contracts see which cell it is.
#[derive(Drop)]
pub struct Latest<T: Drop> {
    pub(crate) table: Table<T, View<T>, T, Newest, Global>,
}

impl<T: Drop> Model for Latest<T> {
    ghost use Rattle.std.specs.Prelude.{◌≡◌};
    ghost use Rattle.atomic_table.specs.Seated.{TableId};

    ghost Value = { TableId };

    ghost view = { λ l. l.table.shared.table_id };

    ghost invariant = { λ l. (l.table.shared.table_id.words ≡ 1) × (l.table.shared.table_id.slots ≡ 3) };
}
