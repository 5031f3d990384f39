//! Why a replica or a database refuses a call.
ghost use Rattle.std.specs.Prelude.{Some};
ghost use Rattle.replica.specs.Words.{fault_words};

use std::error::Error;
use std::fmt;

/// The refusals of a replica, of a database, and of a bank of them. A refused call changes nothing.
#[derive(Clone, Copy, PartialEq, Eq, Debug)]
pub enum Fault {
    /// There is no such cell: cells are 0 to 63.
    NoCell,
    /// There is no such slot: slots are 0 to 7.
    NoSlot,
    /// The slot is open already.
    SlotOpen,
    /// The slot is not open.
    SlotClosed,
    /// Another slot holds a lock on the unit of this cell.
    Busy(u64),
    /// A slot is open, so nothing can be taken in.
    NotQuiet,
    /// The position has no successor that the mark could hold.
    LastPosition,
    /// A bank of databases has none at this place.
    NoDatabase,
}

impl fmt::Display for Fault {
    ghost output = { λ x. Some (fault_words x) };

    fn fmt<W: fmt::Write>(&self, f: &mut fmt::Formatter<W>) -> fmt::Result {
        match *self {
            Fault::NoCell => write!(f, "no such cell"),
            Fault::NoSlot => write!(f, "no such slot"),
            Fault::SlotOpen => write!(f, "slot open"),
            Fault::SlotClosed => write!(f, "slot closed"),
            Fault::Busy(cell) => write!(f, "busy at cell {cell}"),
            Fault::NotQuiet => write!(f, "not quiet"),
            Fault::LastPosition => write!(f, "last position"),
            Fault::NoDatabase => write!(f, "no such database"),
        }
    }
}

impl Error for Fault {}
