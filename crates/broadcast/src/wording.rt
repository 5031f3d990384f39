//! Refusals as text for people.
ghost use Rattle.std.specs.Prelude.{Some, codes};

use crate::faults::{Full, NotOrdered, NothingWaits};
use std::error::Error;
use std::fmt;

impl fmt::Display for Full {
    ghost output = { λ _. Some (codes "the broadcast is full") };

    fn fmt<W: fmt::Write>(&self, f: &mut fmt::Formatter<W>) -> fmt::Result {
        write!(f, "the broadcast is full")
    }
}

impl fmt::Display for NothingWaits {
    ghost output = { λ _. Some (codes "no message waits") };

    fn fmt<W: fmt::Write>(&self, f: &mut fmt::Formatter<W>) -> fmt::Result {
        write!(f, "no message waits")
    }
}

impl fmt::Display for NotOrdered {
    ghost output = { λ _. Some (codes "no message is ordered there") };

    fn fmt<W: fmt::Write>(&self, f: &mut fmt::Formatter<W>) -> fmt::Result {
        write!(f, "no message is ordered there")
    }
}

impl Error for Full {}

impl Error for NothingWaits {}

impl Error for NotOrdered {}
