//! The calls of a replica.
ghost use Rattle.std.specs.Prelude.{◌≡◌};
ghost use Rattle.replica.specs.Calls.{cleared};
ghost use Rattle.deferred.specs.Means.{meaning_of};

use crate::state::Deferred;
use replica::{CELLS, Fault, Replica, SLOTS, slots};
use statement::Statement;

impl Deferred {
    /// A database with cells and mark 0 and every slot closed.
    pub fn new() -> Deferred
        ensures { meaning_of result ≡ cleared }
    {
        Deferred {
            cells: [0; CELLS],
            slots: [None; SLOTS],
            mark: 0,
        }
    }
}

impl Replica for Deferred {
    ghost meaning = { meaning_of };

    fn clear(&mut self) {
        *self = Deferred::new();
    }

    fn cell(&self, cell: u64) -> Result<u64, Fault> {
        self.cells.get(cell as usize).copied().ok_or(Fault::NoCell)
    }

    fn mark(&self) -> u64 {
        self.mark
    }

    fn intake(&mut self, statements: &[Statement], position: u64) -> Result<(), Fault> {
        slots::take_in(
            &self.slots,
            &mut self.cells,
            &mut self.mark,
            statements,
            position,
        )
    }
}
