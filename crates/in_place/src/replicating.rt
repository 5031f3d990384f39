//! A new database, and its calls as a replica.
ghost use Rattle.std.specs.Prelude.{◌≡◌};
ghost use Rattle.replica.specs.Calls.{cleared};
ghost use Rattle.in_place.specs.State.{meaning_of};

use crate::former::base;
use crate::state::InPlace;
use replica::{CELLS, Fault, Replica, SLOTS, slots};
use statement::Statement;

impl InPlace {
    /// A database whose cells and mark are 0, with every slot closed.
    pub fn new() -> InPlace
        ensures { meaning_of result ≡ cleared }
    {
        InPlace {
            cells: [0; CELLS],
            formers: [None; CELLS],
            slots: [None; SLOTS],
            mark: 0,
        }
    }
}

impl Replica for InPlace {
    ghost meaning = { meaning_of };

    fn clear(&mut self) {
        *self = InPlace::new();
    }

    fn cell(&self, cell: u64) -> Result<u64, Fault> {
        let c = cell as usize;
        let written = self.cells.get(c).ok_or(Fault::NoCell)?;
        Ok(base(self.formers[c], *written))
    }

    fn mark(&self) -> u64 {
        self.mark
    }

    fn intake(&mut self, statements: &[Statement], position: u64) -> Result<(), Fault> {
        slots::take_in(
            &self.slots,
            &mut self.cells,
            &mut self.mark,
            statements,
            position,
        )
    }
}
