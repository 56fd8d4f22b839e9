//! The table of a queue, and its rule.
ghost use Rattle.std.specs.Prelude.{◌≡◌, ℕ};
ghost use Rattle.atomic_table.specs.Seated.{TableId};

use crate::cell::Slot;
use crate::view::View;
use af_base::FastState;
use atomic_table::{Table, TableRule};
use std::alloc::Global;
use std::marker::{Model, PhantomData};

/// Which item belongs to which track. Contracts alone see the fact, at the key that a queue was made with.
pub trait Fits<P> {
    type Key: Drop;

    ghost fits: { Self.Key → ℕ → P → Type 0 };
}

/// The first content of the cells, and the key.
#[derive(Drop)]
pub struct Basis<K: Drop> {
    pub first: FastState,
    pub key: K,
}

/// The rule under which the cells and the shelves change hands.
pub struct Shelved<N> {
    fits: PhantomData<N>,
}

impl<P, N: Fits<P>> TableRule<Slot<P>, View<P, N::Key>, Basis<N::Key>> for Shelved<N> {
    ghost use Rattle.af_stateq.specs.Shelved.{Kept, starting};

    ghost holds = { Kept N.fits };

    ghost first = { starting };
}

/// What the mutator and the observer share. Contracts see which queue it is.
#[derive(Drop)]
pub struct Queue<P: Drop, N: Fits<P>> {
    pub(crate) table: Table<Slot<P>, View<P, N::Key>, Basis<N::Key>, Shelved<N>, Global>,
}

impl<P: Drop, N: Fits<P>> Model for Queue<P, N> {
    ghost use Rattle.std.specs.Prelude.{◌≡◌, ◌+◌};
    ghost use Rattle.atomic_table.specs.Seated.{TableId};
    ghost use Rattle.af_model.specs.StateQueue.{slots};
    ghost use Rattle.af_stateq.specs.Shelved.{cells};

    ghost Value = { TableId };

    ghost view = { λ q. q.table.shared.table_id };

    ghost invariant = { λ q. (q.table.shared.table_id.words ≡ 2) × (q.table.shared.table_id.slots ≡ cells + slots) };
}
