//! Why a server turns an act down.
ghost use Rattle.std.specs.Prelude.{◌≡◌};
ghost use Rattle.pronto.specs.Numbers.{fault_number, passed_up};
ghost use Rattle.pronto.specs.declared.faults.ServerFault.TheVariants as faults;

use broadcast::NotOrdered;
use replica::Fault;
use statement::Missing;

/// The refusals of one server (docs/refusals.md has their numbers). A refused act changes nothing.
#[derive(Clone, Copy, PartialEq, Eq, Debug)]
pub enum ServerFault {
    /// The server is stopped.
    Stopped,
    /// The server is running already.
    Running,
    /// There is no such client: clients are 0 to 15.
    NoClient,
    /// There is no such cell or member: both are 0 to 63.
    NoCell,
    /// The server is not the primary of its epoch.
    NotPrimary,
    /// The server was restarted, and its bar is not lifted yet.
    Barred,
    /// The client has that job open here already.
    AlreadyOpen,
    /// Eight transactions are open here.
    Crowded,
    /// The client has no such job open here.
    NoTransaction,
    /// The transaction is committing.
    Committing,
    /// Six statements are noted already.
    Long,
    /// The database is busy at this cell.
    Busy(u64),
    /// Every ordered message is delivered.
    AllDelivered,
    /// The database does not hold what the server's table says. No list of acts on a new ensemble leads here.
    Torn,
}

/// A busy database turns a run down; any other fault shows that the database does not hold what the server's table says.
impl From<Fault> for ServerFault {
    ghost from_gives = { λ fault served. served ≡ passed_up fault };

    fn from(fault: Fault) -> ServerFault {
        match fault {
            Fault::Busy(cell) => ServerFault::Busy(cell),
            Fault::NoCell => ServerFault::Torn,
            Fault::NoSlot => ServerFault::Torn,
            Fault::SlotOpen => ServerFault::Torn,
            Fault::SlotClosed => ServerFault::Torn,
            Fault::NotQuiet => ServerFault::Torn,
            Fault::LastPosition => ServerFault::Torn,
            Fault::NoDatabase => ServerFault::Torn,
        }
    }
}

/// A statement that names no cell or member is turned down.
impl From<Missing> for ServerFault {
    ghost from_gives = { λ _ served. served ≡ faults.NoCell };

    fn from(_missing: Missing) -> ServerFault {
        Self::NoCell
    }
}

/// Where no message is ordered at the delivered count, all are delivered.
impl From<NotOrdered> for ServerFault {
    ghost from_gives = { λ _ served. served ≡ faults.AllDelivered };

    fn from(_ordered: NotOrdered) -> ServerFault {
        Self::AllDelivered
    }
}

impl ServerFault {
    /// The number of this refusal in docs/refusals.md; 0 for a database that does not hold what the server's table says.
    pub fn number(&self) -> u64
        ensures { result ≡ fault_number self.now }
    {
        match *self {
            ServerFault::Stopped => 2,
            ServerFault::Running => 3,
            ServerFault::NoClient => 4,
            ServerFault::NoCell => 5,
            ServerFault::NotPrimary => 6,
            ServerFault::Barred => 7,
            ServerFault::AlreadyOpen => 8,
            ServerFault::Crowded => 9,
            ServerFault::NoTransaction => 10,
            ServerFault::Committing => 11,
            ServerFault::Long => 12,
            ServerFault::Busy(_) => 13,
            ServerFault::AllDelivered => 16,
            ServerFault::Torn => 0,
        }
    }
}
