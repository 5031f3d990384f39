//! What a delivered message does to a server's database, and how its server advances.
ghost use Rattle.std.specs.Prelude.{ℕ};
ghost use Rattle.message.specs.Messages.{msg_of, tx_of, transaction};
ghost use Rattle.journal.specs.Judging.{committed, again};
ghost use Rattle.journal.specs.Verdicts.{judged_of};
ghost use Rattle.server.specs.Acting.{Meets};

use crate::servers::Server;
use crate::servers::advances::Advance;
use bank::{DatabaseBank, ReplicaBank};
use journal::Judgement;
use message::{Message, Transaction};
use pronto::ServerFault;

/// A committed transaction: sealed where it is the server's own; otherwise taken in, unless its position is below the mark.
fn commit<K: DatabaseBank>(
    server: &Server,
    bank: &mut K,
    place: u64,
    number: u8,
    message: &Transaction,
) -> Result<Advance, ServerFault>
    ensures { Meets K.ReplicaBank.size number committed (transaction (tx_of message.now)) result place server.now (K.ReplicaBank.meanings bank.old) (K.ReplicaBank.meanings bank.new) }
{
    let position = server.delivered();
    match server.own(number, message) {
        Some(slot) => {
            bank.seal(place, slot.index, position)?;
            Ok(Advance::Closes(slot))
        }
        None if position < bank.mark(place) => Ok(Advance::Passes),
        None => {
            bank.intake(place, message.notes.statements(), position)?;
            Ok(Advance::Passes)
        }
    }
}

/// A transaction whose job was committed before: undone where it is the server's own.
fn repeat<K: DatabaseBank>(
    server: &Server,
    bank: &mut K,
    place: u64,
    number: u8,
    message: &Transaction,
) -> Result<Advance, ServerFault>
    ensures { (q : ℕ) → Meets K.ReplicaBank.size number (again q) (transaction (tx_of message.now)) result place server.now (K.ReplicaBank.meanings bank.old) (K.ReplicaBank.meanings bank.new) }
{
    match server.own(number, message) {
        Some(slot) => {
            bank.undo(place, slot.index)?;
            Ok(Advance::Closes(slot))
        }
        None => Ok(Advance::Passes),
    }
}

/// A message that is judged so.
pub(crate) fn handle<K: DatabaseBank>(
    server: &Server,
    bank: &mut K,
    place: u64,
    number: u8,
    message: &Message,
    judgement: Judgement,
) -> Result<Advance, ServerFault>
    ensures { Meets K.ReplicaBank.size number (judged_of judgement) (msg_of message.now) result place server.now (K.ReplicaBank.meanings bank.old) (K.ReplicaBank.meanings bank.new) }
{
    match (judgement, message) {
        (Judgement::Accepted, _) => {
            bank.lose(place);
            Ok(Advance::Rises)
        }
        (Judgement::Committed, Message::Transaction(transaction)) => commit(
            server,
            bank,
            place,
            number,
            transaction,
        ),
        (Judgement::Again(_), Message::Transaction(transaction)) => repeat(
            server,
            bank,
            place,
            number,
            transaction,
        ),
        _ => Ok(Advance::Passes),
    }
}
