//! What is locked together: eight cells in a row.
ghost use Rattle.std.specs.Prelude.{◌≡◌, ◌<◌};
ghost use Rattle.deferred.specs.Units.{unit_of_eight};

use statement::Statement;

/// The units of a database, numbered from 0.
pub(crate) const UNITS: usize = 8;

/// The cells of a unit.
const UNIT_CELLS: u64 = 8;

/// The unit of the statement's cell.
pub(crate) fn unit(statement: &Statement) -> usize
    ensures value { result ≡ unit_of_eight statement.now.cell }
    ensures bound { result < 8 }
{
    (statement.cell() / UNIT_CELLS) as usize
}
