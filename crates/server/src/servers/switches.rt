//! How a stop and a start change a server, apart from its database.
ghost use Rattle.std.specs.Prelude.{◌≡◌};
ghost use Rattle.replica.specs.Meanings.{Meaning};
ghost use Rattle.replica.specs.Calls.{lost};
ghost use Rattle.pronto.specs.Servers.{stopped, started};
ghost use Rattle.server.specs.Shown.{shown};

use super::Server;
use replica::SLOTS;

impl Server {
    /// Stopped: it knows of no transaction, and starts again in epoch 1 with nothing delivered.
    pub(crate) fn halt(&mut self)
        ensures { (m : Meaning) → shown self.new (lost m) ≡ stopped (shown self.old m) }
    {
        self.running = false;
        self.rows = [None; SLOTS];
        self.epoch = 1;
        self.delivered = 0;
    }

    /// Running again, with a bar.
    pub(crate) fn resume(&mut self, bar: u64)
        ensures { (m : Meaning) → shown self.new m ≡ started (shown self.old m) bar }
    {
        self.running = true;
        self.bar = Some(bar);
    }
}
