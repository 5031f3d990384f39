//! A new server, and what can be asked of one.
ghost use Rattle.std.specs.Prelude.{◌≡◌};
ghost use Rattle.replica.specs.Meanings.{Meaning};
ghost use Rattle.pronto.specs.Servers.{new_site, with_db};
ghost use Rattle.pronto.specs.Refusing.{find};
ghost use Rattle.server.specs.Shown.{shown};
ghost use Rattle.server.specs.Looking.{state_told, state_found};

use super::Server;
use crate::states::State;
use pronto::TransactionId;
use replica::SLOTS;

impl Server {
    /// A server that runs in epoch 1, with nothing open, nothing delivered and no bar.
    pub fn new() -> Server
        ensures { (m : Meaning) → shown result m ≡ with_db new_site m }
    {
        Server {
            running: true,
            epoch: 1,
            delivered: 0,
            bar: None,
            rows: [None; SLOTS],
        }
    }

    /// Whether it runs.
    pub fn running(&self) -> bool
        ensures { result ≡ self.now.running }
    {
        self.running
    }

    /// Its epoch.
    pub fn epoch(&self) -> u64
        ensures { result ≡ self.now.epoch }
    {
        self.epoch
    }

    /// How many messages are delivered here.
    pub fn delivered(&self) -> u64
        ensures { result ≡ self.now.delivered }
    {
        self.delivered
    }

    /// How far the transaction of a client's job is; `None` exactly where there is none. The server that the id names is not looked at.
    pub fn transaction_state(&self, id: TransactionId) -> Option<State>
        ensures { (m : Meaning) → state_told result ≡ state_found (find (shown self.now m) id.client id.job) }
    {
        self.find(id.client, id.job).map(|(_, row)| row.state)
    }
}
