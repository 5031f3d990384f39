//! Begin at one server with its database.
ghost use Rattle.server.specs.Acting.{Begins};

use crate::counts::ServerCount;
use crate::rows::Row;
use crate::servers::Server;
use bank::DatabaseBank;
use pronto::{ServerFault, TransactionId};

/// Opens the transaction of a client's job in a free slot, at its server among so many.
///
/// Refused where the server is stopped, the client does not exist, the server is not the primary of its epoch or has a bar, the job is
/// open here already, or eight transactions are.
pub fn begin<K: DatabaseBank>(
    server: &mut Server,
    bank: &mut K,
    place: u64,
    count: ServerCount,
    id: TransactionId,
) -> Result<(), ServerFault>
    ensures { Begins K.ReplicaBank.size count.count id.server id.client id.job result place server.old (K.ReplicaBank.meanings bank.old) server.new (K.ReplicaBank.meanings bank.new) }
{
    let slot = server.look_begin(count, id)?;
    bank.open(place, slot.index)?;
    server.put(slot, Some(Row::new(id.client, id.job)));
    Ok(())
}
