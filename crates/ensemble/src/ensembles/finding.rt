//! Finding a server, and passing its faults up.
ghost use Rattle.std.specs.Prelude.{◌≡◌};
ghost use Rattle.ensemble.specs.Whole.{state, Place, passed};
ghost use Rattle.ensemble.specs.Asking.{Asked};

use super::Ensemble;
use bank::{DatabaseBank, ReplicaBank};
use broadcast::Broadcast;
use pronto::{Refusal, ServerFault};
use server::Server;

/// What a server answered, a fault with the server's number.
pub(crate) fn at_server<T>(server: u8, outcome: Result<T, ServerFault>) -> Result<T, Refusal>
    ensures { result ≡ passed server outcome }
{
    outcome.map_err(|fault| Refusal::Server(server, fault))
}

impl<B: Broadcast, K: DatabaseBank> Ensemble<B, K> {
    /// The place of a server.
    ///
    /// Refused where there is no such server.
    pub(crate) fn place(&self, server: u8) -> Result<usize, Refusal>
        ensures { Place (state B.Broadcast K.ReplicaBank K.DatabaseBank.own self.now) server result }
    {
        if server == 0 || server > self.count.get() {
            return Err(Refusal::NoServer);
        }
        Ok(usize::from(server) - 1)
    }

    /// The server of a number.
    ///
    /// Refused where there is no such server.
    pub(crate) fn asked(&self, server: u8) -> Result<&Server, Refusal>
        ensures { Asked (state B.Broadcast K.ReplicaBank K.DatabaseBank.own self.now) server result }
    {
        let place = self.place(server)?;
        Ok(&self.servers[place])
    }
}
