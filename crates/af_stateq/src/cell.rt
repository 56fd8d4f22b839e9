//! What lies in the slots of the table.
use af_base::FastState;

/// How many of the table's slots are cells. After them comes a shelf for each slot of a state.
pub(crate) const CELLS: usize = 4;

/// A cell has a state, and its item is never set. A shelf has the item of its slot, and its state is never read.
#[derive(Drop)]
pub struct Slot<P> {
    pub state: FastState,
    pub item: Option<P>,
}
