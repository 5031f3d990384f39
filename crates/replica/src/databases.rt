//! A database: a replica that can also run transactions, in slots 0 to 7.
ghost use Rattle.std.specs.Prelude.{◌≡◌, ℕ, ◌<◌};
ghost use Rattle.replica.specs.Calls.{lost};
ghost use Rattle.replica.specs.Outcomes.{Opens, Runs, Seals, Undoes};

use crate::faults::Fault;
use crate::replicas::Replica;
use statement::Statement;

/// A replica that runs transactions. A lock is on a unit, and a cell's unit depends on the cell alone.
pub trait Database: Replica {
    ghost unit: { ℕ → ℕ };

    /// Opens a slot for a transaction: no lock, no value of its own.
    ///
    /// Refused where there is no such slot, and then where it is open already.
    fn open(&mut self, slot: usize) -> Result<(), Fault>
        ensures { Opens result slot (Self.Replica.meaning self.old) (Self.Replica.meaning self.new) };

    /// Runs a statement on the slot's own value, or on the committed cell where it has none, and answers its result.
    ///
    /// Refused where the slot is not open, and then as busy where another open slot has a lock on the cell's unit and one of
    /// the two locks is for writing.
    fn run(&mut self, slot: usize, statement: &Statement) -> Result<u64, Fault>
        ensures { Runs unit result slot statement.now (Self.Replica.meaning self.old) (Self.Replica.meaning self.new) };

    /// Makes the slot's own values the committed cells, sets the mark one past the position, and closes the slot.
    ///
    /// Refused where the slot is not open, and then where the position is the last of 64 bits.
    fn seal(&mut self, slot: usize, position: u64) -> Result<(), Fault>
        ensures { Seals result slot position (Self.Replica.meaning self.old) (Self.Replica.meaning self.new) };

    /// Closes the slot and drops its own values.
    ///
    /// Refused where the slot is not open.
    fn undo(&mut self, slot: usize) -> Result<(), Fault>
        ensures { Undoes result slot (Self.Replica.meaning self.old) (Self.Replica.meaning self.new) };

    /// Closes every slot and drops its own values.
    fn lose(&mut self)
        ensures { Self.Replica.meaning self.new ≡ lost (Self.Replica.meaning self.old) };

    ghost below: { (c : ℕ) → c < 64 → unit c < 64 };
}
