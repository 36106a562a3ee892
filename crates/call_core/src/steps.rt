ghost use Rattle.std.specs.Prelude.{◌≡◌, ◌+◌};

use crate::count::Count;
use std::marker::Model;

/// How many steps were taken, a number that only contracts see: at run time it has no bytes beside its ledger.
///
/// It begins at 0 and grows by `tick` alone. One is made from a ledger, which it keeps for good, so code over any
/// ledger `L`, which is handed a counter and no `L`, has that counter and no other to count in.
#[derive(Drop)]
pub struct Steps<L> {
    ledger: L,
    count: Count,
}

/// The ledger of calls that count in a counter of their own.
#[derive(Clone, Copy, Debug, PartialEq, Eq)]
pub struct Plain;

impl<L> Model for Steps<L> {
    ghost use Rattle.std.specs.Prelude.{ℕ};

    ghost Value = { ℕ };

    ghost view = { λ steps. steps.count.taken };
}

impl<L> Steps<L> {
    /// A counter at 0.
    pub fn new(ledger: L) -> Steps<L>
        ensures { result ≡ 0 }
    {
        let count = Count::new();
        Steps { ledger, count }
    }

    /// Takes one step.
    pub fn tick(&mut self)
        ensures { self.new ≡ self.old + 1 }
    {
        self.count.add_one();
    }
}
