//! Stop and start at one server with its database.
ghost use Rattle.std.specs.Prelude.{ℕ};
ghost use Rattle.replica.specs.Meanings.{Meaning};
ghost use Rattle.server.specs.Acting.{Stops, Starts};

use crate::servers::Server;
use bank::DatabaseBank;
use pronto::ServerFault;

/// Loses all slots and all transactions; epoch 1, nothing delivered. Cells and mark stay.
///
/// Refused where the server is stopped already.
pub fn stop<K: DatabaseBank>(
    server: &mut Server,
    bank: &mut K,
    place: u64,
) -> Result<(), ServerFault>
    ensures { Stops result place server.old (K.ReplicaBank.meanings bank.old) server.new (K.ReplicaBank.meanings bank.new) }
{
    server.look_running()?;
    bank.lose(place);
    server.halt();
    Ok(())
}

/// Has the server run, with a bar. Its database stays as it is.
///
/// Refused where the server runs already.
pub fn start(server: &mut Server, bar: u64) -> Result<(), ServerFault>
    ensures { (i : ℕ) (ms : ℕ → Meaning) → Starts bar result i server.old ms server.new ms }
{
    server.look_start()?;
    server.resume(bar);
    Ok(())
}
