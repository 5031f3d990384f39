//! Deliver at one server with its database.
ghost use Rattle.server.specs.Acting.{Delivers};

use crate::handles::handle;
use crate::servers::Server;
use bank::DatabaseBank;
use broadcast::Broadcast;
use journal::Judgement;
use pronto::ServerFault;

/// Handles the message at the delivered count, at the server of this number, and answers its position and its judgement.
///
/// Refused where the server is stopped or every ordered message is delivered.
pub fn deliver<B: Broadcast, K: DatabaseBank>(
    server: &mut Server,
    bank: &mut K,
    broadcast: &B,
    place: u64,
    number: u8,
) -> Result<(u64, Judgement), ServerFault>
    ensures { Delivers K.ReplicaBank.size (B.Broadcast.log broadcast.now) number result place server.old (K.ReplicaBank.meanings bank.old) server.new (K.ReplicaBank.meanings bank.new) }
{
    let position = server.delivered();
    let (message, judgement) = server.look_deliver(broadcast)?;
    let advance = handle(server, bank, place, number, message, judgement)?;
    server.advance(advance);
    Ok((position, judgement))
}
