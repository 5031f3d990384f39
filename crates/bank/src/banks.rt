//! The two grades of a bank: what any replica can do, and what a database can do besides.
ghost use Rattle.std.specs.Prelude.{◌≡◌, ℕ, min};
ghost use Rattle.replica.specs.Meanings.{Meaning};
ghost use Rattle.replica.specs.Refusals.{cell_refusal};
ghost use Rattle.replica.specs.Outcomes.{Shown};
ghost use Rattle.bank.specs.Places.{cleared_below, BankTakesIn, BankOpens, BankRuns, BankSeals, BankUndoes, BankLoses};

use replica::Fault;
use statement::Statement;

/// Replicas by place, from 0. A place past the last shows a cleared replica, which nothing changes.
pub trait ReplicaBank {
    ghost meanings: { Self → ℕ → Meaning };

    ghost size: { ℕ };

    /// How many replicas there are; 8 where there are more.
    fn count(&self) -> u64
        ensures { result ≡ min 8 size };

    /// Clears the replicas at the first `count` places, and no other.
    fn clear(&mut self, count: u64)
        ensures { meanings self.new ≡ cleared_below count (meanings self.old) };

    /// The committed value of a cell there.
    ///
    /// Refused where there is no such cell.
    fn cell(&self, place: u64, cell: u64) -> Result<u64, Fault>
        ensures { Shown result (cell_refusal cell) ((meanings self.now place).cells cell) };

    /// The mark there.
    fn mark(&self, place: u64) -> u64
        ensures { result ≡ (meanings self.now place).mark };

    /// Has the replica there take in the statements of the message at a position.
    ///
    /// Refused where there is none, and then as that replica refuses.
    fn intake(&mut self, place: u64, statements: &[Statement], position: u64) -> Result<(), Fault>
        ensures { BankTakesIn size result place statements.now position (meanings self.old) (meanings self.new) };
}

/// Databases by place. A call changes one database and no other.
pub trait DatabaseBank: ReplicaBank {
    ghost units: { ℕ → ℕ → ℕ };

    /// Opens a slot there.
    ///
    /// Refused where there is no database, and then as that database refuses.
    fn open(&mut self, place: u64, slot: usize) -> Result<(), Fault>
        ensures { BankOpens Self.ReplicaBank.size result place slot (Self.ReplicaBank.meanings self.old) (Self.ReplicaBank.meanings self.new) };

    /// Runs a statement in a slot there and answers its result.
    ///
    /// Refused as that database refuses.
    fn run(&mut self, place: u64, slot: usize, statement: &Statement) -> Result<u64, Fault>
        ensures { BankRuns units result place slot statement.now (Self.ReplicaBank.meanings self.old) (Self.ReplicaBank.meanings self.new) };

    /// Seals a slot there at a position.
    ///
    /// Refused as that database refuses.
    fn seal(&mut self, place: u64, slot: usize, position: u64) -> Result<(), Fault>
        ensures { BankSeals result place slot position (Self.ReplicaBank.meanings self.old) (Self.ReplicaBank.meanings self.new) };

    /// Undoes a slot there.
    ///
    /// Refused as that database refuses.
    fn undo(&mut self, place: u64, slot: usize) -> Result<(), Fault>
        ensures { BankUndoes result place slot (Self.ReplicaBank.meanings self.old) (Self.ReplicaBank.meanings self.new) };

    /// Closes every slot there.
    fn lose(&mut self, place: u64)
        ensures { BankLoses place (Self.ReplicaBank.meanings self.old) (Self.ReplicaBank.meanings self.new) };
}
