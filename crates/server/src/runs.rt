//! Run and abort at one server with its database.
ghost use Rattle.server.specs.Acting.{Runs, Aborts};

use crate::rows::{Open, Row};
use crate::servers::Server;
use crate::states::Arrival;
use bank::DatabaseBank;
use pronto::{ServerFault, TransactionId};
use statement::Operation;

// kept: cell and operation unchecked: `Statement::new` checks the pair after other refusals; a struct for an unchecked one would be a second statement.
/// Runs the operation on the cell in the transaction of a client's job, notes it, and answers its result.
/// The server that the id names is not looked at.
///
/// Refused where the server is stopped, the client, the cell or the member does not exist, the job is not open, it is committing or has
/// six statements, or the database is busy.
pub fn run<K: DatabaseBank>(
    server: &mut Server,
    bank: &mut K,
    place: u64,
    id: TransactionId,
    cell: u64,
    operation: Operation,
) -> Result<u64, ServerFault>
    ensures { Runs K.DatabaseBank.units id.client id.job cell operation result place server.old (K.ReplicaBank.meanings bank.old) server.new (K.ReplicaBank.meanings bank.new) }
{
    let (statement, transaction) = server.look_run(id, cell, operation)?;
    let result = bank.run(place, transaction.slot.index, &statement)?;
    let notes = transaction
        .row
        .notes
        .with(statement, result)
        .ok_or(ServerFault::Long)?;
    server.settle(Open {
        row: Row {
            notes,
            ..transaction.row
        },
        ..transaction
    });
    Ok(result)
}

/// Undoes the transaction of a client's job and removes it. The server that the id names is not looked at.
///
/// Refused where the server is stopped, the client does not exist, the job is not open, or it is committing.
pub fn abort<K: DatabaseBank>(
    server: &mut Server,
    bank: &mut K,
    place: u64,
    id: TransactionId,
) -> Result<(), ServerFault>
    ensures { Aborts id.client id.job result place server.old (K.ReplicaBank.meanings bank.old) server.new (K.ReplicaBank.meanings bank.new) }
{
    let transaction = server.look_open(id, Arrival::Abort)?;
    bank.undo(place, transaction.slot.index)?;
    server.settle(transaction);
    Ok(())
}
