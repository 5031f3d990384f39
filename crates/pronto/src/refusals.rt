//! Why an act on an ensemble, or a question about it, is turned down.
ghost use Rattle.std.specs.Prelude.{◌≡◌};
ghost use Rattle.pronto.specs.Numbers.{number_of};
ghost use Rattle.pronto.specs.declared.refusals.Refusal.TheVariants as refusals;

use crate::faults::ServerFault;
use broadcast::{NotOrdered, NothingWaits};

/// The refusals of an ensemble. A refused act changes nothing.
#[derive(Clone, Copy, PartialEq, Eq, Debug)]
pub enum Refusal {
    /// There is no such server.
    NoServer,
    /// The server of this number turns the act down.
    Server(u8, ServerFault),
    /// The broadcast is full, for a message of this server.
    Full(u8),
    /// No message waits to be ordered.
    NothingWaits,
    /// The position is at or past the count of ordered messages.
    NotOrdered,
}

impl From<NothingWaits> for Refusal {
    ghost from_gives = { λ _ told. told ≡ refusals.NothingWaits };

    fn from(_waits: NothingWaits) -> Refusal {
        Self::NothingWaits
    }
}

impl From<NotOrdered> for Refusal {
    ghost from_gives = { λ _ told. told ≡ refusals.NotOrdered };

    fn from(_ordered: NotOrdered) -> Refusal {
        Self::NotOrdered
    }
}

impl Refusal {
    /// The number of this refusal in docs/refusals.md; 0 for a database that does not hold what its server's table says.
    pub fn number(&self) -> u64
        ensures { result ≡ number_of self.now }
    {
        match *self {
            Refusal::NoServer => 1,
            Refusal::Server(_, fault) => fault.number(),
            Refusal::Full(_) => 14,
            Refusal::NothingWaits => 15,
            Refusal::NotOrdered => 17,
        }
    }
}
