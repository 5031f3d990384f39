//! The calls of a database.
ghost use Rattle.deferred.specs.Units.{unit_of_eight};
ghost use Rattle.std.proofs.Common.{arith};

use crate::state::Deferred;
use crate::transaction::Transaction;
use replica::{Database, Fault, Replica, SLOTS, slots};
use statement::Statement;

impl Database for Deferred {
    ghost unit = { unit_of_eight };

    ghost below = { λ c low. omega arith };

    fn open(&mut self, slot: usize) -> Result<(), Fault> {
        slots::open(&mut self.slots, slot, Transaction::new())
    }

    fn run(&mut self, slot: usize, statement: &Statement) -> Result<u64, Fault> {
        slots::expect_open(&self.slots, slot)?;
        let cell = statement.cell();
        if self.is_busy(slot, statement) {
            return Err(Fault::Busy(cell));
        }
        let committed = self.cells[cell as usize];
        // kept: tried with `as_mut`, `ok_or` and `?`; what the slot holds in the end stayed open. The slot was found open above.
        let Some(transaction) = &mut self.slots[slot] else {
            return Err(Fault::SlotClosed);
        };
        let effect = statement.apply(transaction.sees(statement, committed));
        if statement.writes() {
            transaction.write(statement, effect.value);
        } else {
            transaction.read(statement);
        }
        Ok(effect.answer)
    }

    fn seal(&mut self, slot: usize, position: u64) -> Result<(), Fault> {
        slots::expect_open(&self.slots, slot)?;
        let next = position.checked_add(1).ok_or(Fault::LastPosition)?;
        self.cells = self.seen(slot);
        self.mark = next;
        self.close(slot);
        Ok(())
    }

    fn undo(&mut self, slot: usize) -> Result<(), Fault> {
        slots::expect_open(&self.slots, slot)?;
        self.close(slot);
        Ok(())
    }

    fn lose(&mut self) {
        self.slots = [None; SLOTS];
    }
}
