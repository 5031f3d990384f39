//! That reading has one answer. The function's contract is the statement.
ghost use Rattle.run_file.specs.Unique.{OneFault, NoFault, OneReading};

/// A text has at most one fault, and none where it is a run file; and a run file has one list of names and one list of steps.
pub fn one_answer()
    ensures fault { OneFault }
    ensures file { NoFault }
    ensures reading { OneReading }
{}
