//! Databases of any makes, held by value as nested pairs: `Pair { first, rest: Pair { .., rest: Nothing } }`.
#![tactic(auto)]

ghost use Rattle.std.specs.Prelude.{◌+◌};
ghost use Rattle.replica.specs.Calls.{cleared};
ghost use Rattle.bank.specs.Places.{ahead};

use bank::{DatabaseBank, ReplicaBank};
use pronto::SERVERS;
use replica::{CELLS, Database, Fault, Replica};
use statement::Statement;

/// No database.
#[derive(Drop)]
pub struct Nothing;

/// A database and the bank of the others.
#[derive(Drop)]
pub struct Pair<D, K> {
    pub first: D,
    pub rest: K,
}

impl ReplicaBank for Nothing {
    ghost meanings = { λ _ _. cleared };

    ghost size = { 0 };

    fn count(&self) -> u64 {
        0
    }

    fn clear(&mut self, _count: u64) {}

    fn cell(&self, _place: u64, cell: u64) -> Result<u64, Fault> {
        if cell < CELLS as u64 {
            Ok(0)
        } else {
            Err(Fault::NoCell)
        }
    }

    fn mark(&self, _place: u64) -> u64 {
        0
    }

    fn intake(
        &mut self,
        _place: u64,
        _statements: &[Statement],
        _position: u64,
    ) -> Result<(), Fault> {
        Err(Fault::NoDatabase)
    }
}

impl DatabaseBank for Nothing {
    ghost units = { λ _ c. c };

    fn open(&mut self, _place: u64, _slot: usize) -> Result<(), Fault> {
        Err(Fault::NoDatabase)
    }

    fn run(&mut self, _place: u64, _slot: usize, _statement: &Statement) -> Result<u64, Fault> {
        Err(Fault::SlotClosed)
    }

    fn seal(&mut self, _place: u64, _slot: usize, _position: u64) -> Result<(), Fault> {
        Err(Fault::SlotClosed)
    }

    fn undo(&mut self, _place: u64, _slot: usize) -> Result<(), Fault> {
        Err(Fault::SlotClosed)
    }

    fn lose(&mut self, _place: u64) {}
}

impl<D: Replica, K: ReplicaBank> ReplicaBank for Pair<D, K> {
    ghost meanings = { λ b. ahead (D.Replica.meaning b.first) (K.ReplicaBank.meanings b.rest) };

    ghost size = { K.ReplicaBank.size + 1 };

    fn count(&self) -> u64 {
        self.rest.count().saturating_add(1).min(SERVERS as u64)
    }

    fn clear(&mut self, count: u64) {
        if count > 0 {
            self.first.clear();
            self.rest.clear(count - 1);
        }
    }

    fn cell(&self, place: u64, cell: u64) -> Result<u64, Fault> {
        if place == 0 {
            self.first.cell(cell)
        } else {
            self.rest.cell(place - 1, cell)
        }
    }

    fn mark(&self, place: u64) -> u64 {
        if place == 0 {
            self.first.mark()
        } else {
            self.rest.mark(place - 1)
        }
    }

    fn intake(&mut self, place: u64, statements: &[Statement], position: u64) -> Result<(), Fault> {
        if place == 0 {
            self.first.intake(statements, position)
        } else {
            self.rest.intake(place - 1, statements, position)
        }
    }
}

impl<D: Database, K: DatabaseBank> DatabaseBank for Pair<D, K> {
    ghost units = { ahead D.Database.unit K.DatabaseBank.units };

    fn open(&mut self, place: u64, slot: usize) -> Result<(), Fault> {
        if place == 0 {
            self.first.open(slot)
        } else {
            self.rest.open(place - 1, slot)
        }
    }

    fn run(&mut self, place: u64, slot: usize, statement: &Statement) -> Result<u64, Fault> {
        if place == 0 {
            self.first.run(slot, statement)
        } else {
            self.rest.run(place - 1, slot, statement)
        }
    }

    fn seal(&mut self, place: u64, slot: usize, position: u64) -> Result<(), Fault> {
        if place == 0 {
            self.first.seal(slot, position)
        } else {
            self.rest.seal(place - 1, slot, position)
        }
    }

    fn undo(&mut self, place: u64, slot: usize) -> Result<(), Fault> {
        if place == 0 {
            self.first.undo(slot)
        } else {
            self.rest.undo(place - 1, slot)
        }
    }

    fn lose(&mut self, place: u64) {
        if place == 0 {
            self.first.lose()
        } else {
            self.rest.lose(place - 1)
        }
    }
}
