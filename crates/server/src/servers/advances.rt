//! How a delivered message changes a server, apart from its database.
ghost use Rattle.std.specs.Prelude.{◌≡◌, ◌<◌};
ghost use Rattle.replica.specs.Meanings.{Meaning};
ghost use Rattle.server.specs.Shown.{shown, advanced};

use super::Server;
use crate::slots::Slot;
use replica::SLOTS;

/// What a delivered message changes, besides that one message more is delivered.
#[derive(Clone, Copy)]
pub(crate) enum Advance {
    /// Nothing.
    Passes,
    /// It ended the transaction in a slot.
    Closes(Slot),
    /// It began an epoch: no transaction is open, and the bar may be lifted.
    Rises,
}

impl Server {
    /// One message further.
    pub(crate) fn advance(&mut self, advance: Advance)
        requires { self.old.delivered < 4096 }
        ensures { (m : Meaning) → shown self.new m ≡ advanced advance (shown self.old m) }
    {
        let position = self.delivered;
        self.delivered = position + 1;
        match advance {
            Advance::Passes => {}
            Advance::Closes(slot) => self.put(slot, None),
            Advance::Rises => {
                self.bar = self.bar.filter(|bar| *bar > position);
                self.rows = [None; SLOTS];
                self.epoch += 1;
            }
        }
    }
}
