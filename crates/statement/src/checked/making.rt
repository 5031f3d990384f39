//! Making a statement from raw numbers, and reading its parts.
ghost use Rattle.std.specs.Prelude.{◌≡◌, ◌<◌, true};
ghost use Rattle.statement.specs.Operations.{fits_member};
ghost use Rattle.statement.specs.Making.{Made};

use super::{Missing, Statement};
use crate::operation::Operation;

impl Missing {
    /// The number of this refusal: 5, for a cell as for a member.
    pub fn number(&self) -> u64
        ensures { result ≡ 5 }
    {
        5
    }
}

impl Statement {
    /// The operation on the cell.
    ///
    /// Refused where there is no such cell, and then where there is no such member.
    pub fn new(cell: u64, operation: Operation) -> Result<Statement, Missing>
        ensures { Made result cell operation }
    {
        if cell >= 64 {
            return Err(Missing::Cell(cell));
        }
        match operation {
            Operation::Join(m) | Operation::Leave(m) => {
                if m >= 64 {
                    return Err(Missing::Member(m));
                }
                Ok(Statement { cell, operation })
            }
            Operation::Get
            | Operation::Set(_)
            | Operation::Add(_)
            | Operation::Take(_)
            | Operation::Heads => Ok(Statement { cell, operation }),
        }
    }

    /// The statement that reads cell 0.
    pub fn reading_first() -> Statement
        ensures { (result.cell ≡ 0) × (result.operation ≡ Operation.Get) }
    {
        Statement {
            cell: 0,
            operation: Operation::Get,
        }
    }

    /// The cell, from 0 to 63.
    pub fn cell(&self) -> u64
        ensures value { result ≡ self.now.cell }
        ensures bound { result < 64 }
    {
        self.cell
    }

    /// What is done with the cell; a member is from 0 to 63.
    pub fn operation(&self) -> Operation
        ensures value { result ≡ self.now.operation }
        ensures bound { fits_member result ≡ true }
    {
        self.operation
    }
}
