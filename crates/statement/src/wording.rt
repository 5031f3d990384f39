//! Statements and their refusals as text.
ghost use Rattle.std.specs.Prelude.{Some};
ghost use Rattle.statement.specs.Words.{statement_words, missing_words};

use crate::checked::{Missing, Statement};
use crate::operation::Operation;
use std::error::Error;
use std::fmt;

/// The words of a run file: the operation, the cell, and the value or member.
impl fmt::Display for Statement {
    ghost output = { λ s. Some (statement_words s) };

    fn fmt<W: fmt::Write>(&self, f: &mut fmt::Formatter<W>) -> fmt::Result {
        let cell = self.cell();
        match self.operation() {
            Operation::Get => write!(f, "get {cell}"),
            Operation::Set(v) => write!(f, "set {cell} {v}"),
            Operation::Add(v) => write!(f, "add {cell} {v}"),
            Operation::Take(v) => write!(f, "take {cell} {v}"),
            Operation::Join(m) => write!(f, "join {cell} {m}"),
            Operation::Leave(m) => write!(f, "leave {cell} {m}"),
            Operation::Heads => write!(f, "heads {cell}"),
        }
    }
}

impl fmt::Display for Missing {
    ghost output = { λ x. Some (missing_words x) };

    fn fmt<W: fmt::Write>(&self, f: &mut fmt::Formatter<W>) -> fmt::Result {
        match *self {
            Missing::Cell(c) => write!(f, "no cell {c}"),
            Missing::Member(m) => write!(f, "no member {m}"),
        }
    }
}

impl Error for Missing {}
