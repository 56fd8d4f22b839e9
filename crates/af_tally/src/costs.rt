//! How many steps cycles took.
ghost use Rattle.std.specs.Prelude.{◌≡◌, ℕ, List, [], ◌∷◌, ◌++◌};
ghost use Rattle.std.specs.Borrow.{ftrue};
ghost use Rattle.af_tally.specs.Noting.{with_note};

use af_base::Steps;
use std::marker::Model;
use std::sync::ledger::Ledger;

/// How many word steps each of some cycles took, one after the other, and how many its note in a log took, 0 if it noted nothing. Contracts see them as `items`; it takes no memory, and what is done with it does nothing at run time.
#[derive(Drop)]
pub struct Costs {
    pub ghost items: { List (ℕ × ℕ) },
}

impl Model for Costs {
    ghost also_owns = { λ _. ftrue };
}

// It owns nothing.
unsafe impl Send for Costs {}

/// The steps of no cycle.
pub fn no_costs() -> Costs
    ensures { result.items ≡ [] }
{
    Costs {}
}

impl Costs {
    /// The steps of one cycle more, which noted nothing yet.
    pub fn and<L: Ledger>(&self, steps: &Steps<L>) -> Costs
        ensures { result.items ≡ self.now.items ++ (steps.now, 0) ∷ [] }
    {
        Costs {}
    }

    /// The same steps, with those of the note of the last cycle.
    pub fn noted<L: Ledger>(&self, steps: &Steps<L>) -> Costs
        ensures { result.items ≡ with_note steps.now self.now.items }
    {
        Costs {}
    }

    /// The same steps.
    pub fn again(&self) -> Costs
        ensures { result.items ≡ self.now.items }
    {
        Costs {}
    }
}
