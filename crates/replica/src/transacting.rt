//! A whole transaction on any database.
ghost use Rattle.replica.specs.Transactions.{Transacts, Finishes};

use crate::databases::Database;
use crate::faults::Fault;
use crate::replicas::Replica;
use statement::Statement;

/// Runs the statements in an open slot and seals it; where one of these is refused, the slot stays open.
fn finish<D: Database>(
    database: &mut D,
    slot: usize,
    statements: &[Statement],
    position: u64,
) -> Result<(), Fault>
    ensures { Finishes D.unit result slot statements.now position (D.Replica.meaning database.old) (D.Replica.meaning database.new) }
{
    for statement in statements {
        database.run(slot, statement)?;
    }
    database.seal(slot, position)
}

/// Opens the slot, runs the statements in order and seals the slot at the position.
///
/// Refused by the first of these calls that refuses; the slot is then undone, so that nothing changes.
pub fn transact<D: Database>(
    database: &mut D,
    slot: usize,
    statements: &[Statement],
    position: u64,
) -> Result<(), Fault>
    ensures { Transacts D.unit result slot statements.now position (D.Replica.meaning database.old) (D.Replica.meaning database.new) }
{
    database.open(slot)?;
    let finished = finish(database, slot, statements, position);
    if finished.is_err() {
        database.undo(slot)?;
    }
    finished
}
