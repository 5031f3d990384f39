//! Making an ensemble.
ghost use Rattle.std.specs.Prelude.{◌≡◌};
ghost use Rattle.ensemble.specs.Making.{Makes};

use super::Ensemble;
use bank::{DatabaseBank, ReplicaBank};
use broadcast::Broadcast;
use pronto::SERVERS;
use server::{Server, ServerCount};

/// What a making that is refused, by number 19, hands back: nothing of it was used.
#[derive(Drop)]
pub struct Unmade<B, K> {
    pub broadcast: B,
    pub bank: K,
}

impl<B: Broadcast, K: DatabaseBank> Ensemble<B, K> {
    /// A new ensemble of so many servers, which have the first databases of the bank; broadcast and these databases are cleared, and no
    /// other database is ever used.
    ///
    /// Refused where the number of servers is 0, above 8, or above the number of databases.
    pub fn new(mut broadcast: B, mut bank: K, servers: u64) -> Result<Ensemble<B, K>, Unmade<B, K>>
        ensures { Makes B.Broadcast K.ReplicaBank K.DatabaseBank.own broadcast bank servers result }
    {
        let enough = servers <= bank.count();
        // kept: an exit that hands both back; `ok_or` would take them also where there is a count.
        let Some(count) = ServerCount::new(servers).filter(|_| enough) else {
            return Err(Unmade { broadcast, bank });
        };
        broadcast.clear();
        bank.clear(servers);
        Ok(Ensemble {
            broadcast,
            bank,
            servers: [Server::new(); SERVERS],
            count,
            sent: 0,
        })
    }

    /// Takes the ensemble apart: the broadcast and the bank, as the acts left them.
    pub fn into_parts(self) -> (B, K)
        ensures { (result.0 ≡ self.broadcast) × (result.1 ≡ self.bank) }
    {
        let Ensemble {
            broadcast,
            bank,
            ..
        } = self;
        (broadcast, bank)
    }
}
