//! The calls of a database that runs transactions.
ghost use Rattle.in_place.specs.State.{same_unit};
ghost use Rattle.std.proofs.Common.{arith};

use crate::cellwise::{base_all, release_all, restore_all};
use crate::read_set::ReadSet;
use crate::state::InPlace;
use replica::{CELLS, Database, Fault, Replica, SLOTS, slots};
use statement::Statement;

impl Database for InPlace {
    ghost unit = { same_unit };

    ghost below = { λ c low. omega arith };

    fn open(&mut self, slot: usize) -> Result<(), Fault> {
        slots::open(&mut self.slots, slot, ReadSet::new())
    }

    fn run(&mut self, slot: usize, statement: &Statement) -> Result<u64, Fault> {
        slots::expect_open(&self.slots, slot)?;
        if self.is_busy(slot, statement) {
            return Err(Fault::Busy(statement.cell()));
        }
        let effect = statement.apply(self.cells[statement.cell() as usize]);
        if statement.writes() {
            self.write(slot, statement, effect.value);
        } else {
            self.look(slot, statement);
        }
        Ok(effect.answer)
    }

    fn seal(&mut self, slot: usize, position: u64) -> Result<(), Fault> {
        slots::expect_open(&self.slots, slot)?;
        let next = position.checked_add(1).ok_or(Fault::LastPosition)?;
        release_all(&mut self.formers, slot);
        self.slots[slot] = None;
        self.mark = next;
        Ok(())
    }

    fn undo(&mut self, slot: usize) -> Result<(), Fault> {
        slots::expect_open(&self.slots, slot)?;
        restore_all(&mut self.cells, &self.formers, slot);
        release_all(&mut self.formers, slot);
        self.slots[slot] = None;
        Ok(())
    }

    fn lose(&mut self) {
        base_all(&mut self.cells, &self.formers);
        self.formers = [None; CELLS];
        self.slots = [None; SLOTS];
    }
}
